// Whole words of a raster: the sum of a table of bytes over them, and the pixels that they hold.
ghost use Rattle.std.specs.Prelude.{◌≡◌, ◌*◌, ◌≤◌, length};
ghost use Rattle.marks.specs.Count.{total};
ghost use Rattle.marks.specs.inner.Bright.{AtMost, word_bright, word_bright_at};
ghost use Rattle.marks.specs.inner.Seen.{only, Flagged, word_mask, words_mask, words_seen, mask_times};

use crate::tables::Tables;
use crate::walk::in_word;

// The masks of a word's bytes together.
fn word_mask(masks: &[u32; 256], word: u32) -> u32
    ensures { result ≡ word_mask masks.now word }
{
    let [a, b, c, d] = word.to_le_bytes();
    masks[usize::from(a)] | masks[usize::from(b)] | masks[usize::from(c)] | masks[usize::from(d)]
}

// By masks, for depths 1, 2 and 4: the table's sum, and a bit for each pixel that the words hold.
#[tactic(auto, using(crate::proofs::Spanned::word_more), unfolding(crate::specs::Count::total, crate::specs::inner::Seen::words_mask))]
fn masked_span(bytes: &[u32; 256], masks: &[u32; 256], words: &[u32]) -> (u32, u32)
    requires { AtMost bytes.now 255 × (length words.now ≤ 512) }
    ensures { (result.0 ≡ total (word_bright_at bytes.now words.now) (length words.now))
        × (result.1 ≡ words_mask masks.now words.now (length words.now)) }
{
    let mut count = 0;
    let mut mask = 0;
    for &word in words {
        count += in_word(bytes, word);
        mask |= word_mask(masks, word);
    }
    (count, mask)
}

// A mask's pixels among the flags.
fn flag_mask(mask: u32, flags: &mut [u8; 256])
    ensures { Flagged flags.old flags.new (mask_times mask) }
{
    for q in 0..16 {
        if (mask >> q) % 2 == 1 {
            flags[q] = 1;
        }
    }
}

// A word's bytes among the flags.
fn flag_word(word: u32, flags: &mut [u8; 256])
    ensures { Flagged flags.old flags.new (λ q. word_bright (only q) word) }
{
    let [a, b, c, d] = word.to_le_bytes();
    flags[usize::from(a)] = 1;
    flags[usize::from(b)] = 1;
    flags[usize::from(c)] = 1;
    flags[usize::from(d)] = 1;
}

// By flags, for depth 8: a byte is a pixel.
#[tactic(auto, using(crate::proofs::Spanned::words_most), unfolding(crate::specs::Count::total))]
fn flagged_span(bytes: &[u32; 256], words: &[u32], flags: &mut [u8; 256]) -> u32
    requires { AtMost bytes.now 255 × (length words.now ≤ 512) }
    ensures { (result ≡ total (word_bright_at bytes.now words.now) (length words.now))
        × Flagged flags.old flags.new (λ q. total (word_bright_at (only q) words.now) (length words.now)) }
{
    let mut count = 0;
    for &word in words {
        flag_word(word, flags);
        count += in_word(bytes, word);
    }
    count
}

impl Tables {
    // Some words: the table's sum, and the pixels seen. At depth 8 the masks play no part.
    pub fn span(&self, words: &[u32], flags: &mut [u8; 256]) -> u32
        requires { length words.now ≤ 512 }
        ensures { (result ≡ total (word_bright_at self.now.sums words.now) (length words.now))
            × (result ≤ 1020 * 512)
            × Flagged flags.old flags.new (words_seen self.now.depth words.now (length words.now)) }
    {
        if self.depth == 8 {
            return flagged_span(&self.sums, words, flags);
        }
        let (count, mask) = masked_span(&self.sums, &self.masks, words);
        flag_mask(mask, flags);
        count
    }
}
