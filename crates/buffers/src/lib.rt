// What lent memory holds, and the laws about it (specs/ and proofs/), for every crate above; and the little code that several of them share.
#![tactic(auto)]

ghost use Rattle.std.specs.Prelude.{◌≡◌, [], ◌∷◌, ◌+◌, ◌*◌, ◌-◌, ◌≤◌, length, take};
ghost use Rattle.std.proofs.lemmas.List.Edits.{sets};
ghost use Rattle.buffers.specs.Put.{text_in};
ghost use Rattle.buffers.specs.Words.{word, words_of, bytes_of};

// The word that four bytes make.
pub fn joined(a: u8, b: u8, c: u8, d: u8) -> u32
    ensures { result ≡ word a b c d }
{
    u32::from_le_bytes([a, b, c, d])
}

// The first words of a list of bytes, as many as it has, stored in order as far as there is room.
pub fn copy_words(bytes: &[u8], count: usize, out: &mut [u32])
    ensures { out.new ≡ sets out.old 0 (words_of (take (4 * count) bytes.now)) }
{
    let end = count.min(bytes.len() / 4).min(out.len());
    for k in 0..end {
        let at = 4 * k;
        out[k] = joined(bytes[at], bytes[at + 1], bytes[at + 2], bytes[at + 3]);
    }
}

// One word's bytes stored from a place on.
fn put_word(out: &mut [u8], at: usize, word: u32)
    requires { at + 4 ≤ length out.old }
    ensures { out.new ≡ sets out.old at (bytes_of (word ∷ [])) }
{
    out[at..at + 4].copy_from_slice(&word.to_le_bytes());
}

// The bytes of all words, stored from a place on; none where they do not all fit.
pub fn put_words(out: &mut [u8], at: usize, words: &[u32])
    ensures { out.new
        ≡ sets out.old at (text_in (length out.old - at) (bytes_of words.now)) }
{
    if out.len().saturating_sub(at) / 4 < words.len() {
        return;
    }
    for (k, word) in words.iter().enumerate() {
        put_word(out, at + 4 * k, *word);
    }
}
