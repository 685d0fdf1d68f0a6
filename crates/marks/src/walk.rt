// Bright pixels of the display, by whole words through the table of bytes.
ghost use Rattle.std.specs.Prelude.{◌≡◌, ◌*◌, ◌≤◌, length};
ghost use Rattle.marks.specs.Count.{total};
ghost use Rattle.marks.specs.inner.Bright.{AtMost, word_bright, word_bright_at};

// What the table has for the four bytes of a word.
pub fn in_word(bytes: &[u32; 256], word: u32) -> u32
    requires { AtMost bytes.now 255 }
    ensures { (result ≡ word_bright bytes.now word) × (result ≤ 1020) }
{
    let [a, b, c, d] = word.to_le_bytes();
    bytes[usize::from(a)] + bytes[usize::from(b)] + bytes[usize::from(c)] + bytes[usize::from(d)]
}

// The sum over all words, in four sums: one would have each word wait for the word before.
#[tactic(auto, using(crate::proofs::Spanned::words_most), unfolding(crate::specs::Count::total))]
pub fn in_words(bytes: &[u32; 256], words: &[u32]) -> u32
    requires { AtMost bytes.now 255 × (length words.now ≤ 0x8_0000) }
    ensures { result ≡ total (word_bright_at bytes.now words.now) (length words.now) }
{
    let (fours, rest) = words.as_chunks::<4>();
    let mut a = 0;
    let mut b = 0;
    let mut c = 0;
    let mut d = 0;
    for [w, x, y, z] in fours {
        a += in_word(bytes, *w);
        b += in_word(bytes, *x);
        c += in_word(bytes, *y);
        d += in_word(bytes, *z);
    }
    for word in rest {
        a += in_word(bytes, *word);
    }
    a + b + c + d
}
