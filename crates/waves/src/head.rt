// The head of a WAV file.
ghost use Rattle.std.specs.Prelude.{◌≡◌, length};
ghost use Rattle.buffers.specs.Put.{Put, text_in};
ghost use Rattle.waves.specs.Head.{rate_of, head_words, wave_head};

use buffers::put_words;

// Frames a second: a sound frequency of n is a period of n + 1 microseconds.
fn rate_of(frequency: u8) -> u32
    ensures { result ≡ rate_of frequency }
{
    let period = u32::from(frequency) + 1;
    (1_000_000 + period / 2) / period
}

// The head's eleven words.
fn head_words(frequency: u8, words: usize) -> [u32; 11]
    ensures { result ≡ head_words (rate_of frequency) words }
{
    let rate = rate_of(frequency);
    let bytes = 16 * (words as u64 % 0x1000_0000);
    [
        0x4646_4952,
        ((36 + bytes) % 0x1_0000_0000) as u32,
        0x4556_4157,
        0x2074_6D66,
        16,
        0x0002_0001,
        rate,
        4 * rate,
        0x0010_0004,
        0x6174_6164,
        bytes as u32,
    ]
}

// The head of a file of some sound words in lent memory, and its length; none where it does not fit.
pub fn head(frequency: u8, words: usize, out: &mut [u8]) -> usize
    ensures { Put out.old out.new 0 (text_in (length out.old) (wave_head frequency words)) result }
{
    if out.len() < 44 {
        return 0;
    }
    let parts = head_words(frequency, words);
    put_words(out, 0, &parts);
    44
}
