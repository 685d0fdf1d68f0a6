// Display words into cells, through a table that has the cells of all pixels of each byte.
ghost use Rattle.std.specs.Prelude.{◌≡◌, ◌+◌, ◌*◌, ◌/◌, ◌≤◌, ◌<◌, length, slice_index, EachIndex};
ghost use Rattle.buffers.specs.Painted.{painted};
ghost use Rattle.frame.specs.inner.Per.{Per};
ghost use Rattle.frame.specs.inner.Ink.{word_ink, words_ink};

use crate::painter::Painter;
use crate::quads::quad_words;

// Pixel i of a word, PER pixels to a byte.
#[tactic(auto, unfolding(crate::specs::inner::Ink::word_ink))]
fn cell<const PER: usize>(table: &[u16; 2048], w: u32, i: usize) -> u16
    requires { Per PER × (i < 4 * PER) }
    ensures { result ≡ word_ink table.now w PER i }
{
    let byte = ((w >> (8 * (i / PER))) % 256) as usize;
    table[byte * PER + i % PER]
}

// Eight of them: all are read before one is stored, so that the machine moves them at once.
fn eight<const PER: usize>(table: &[u16; 2048], w: u32, first: usize) -> [u16; 8]
    requires { Per PER × (first + 8 ≤ 4 * PER) }
    ensures { (length result ≡ 8) × EachIndex result (λ k. slice_index result k ≡ word_ink table.now w PER (first + k)) }
{
    let mut cells = [0; 8];
    for i in 0..8 {
        cells[i] = cell::<PER>(table, w, first + i);
    }
    cells
}

// All pixels of one word.
fn word<const PER: usize>(out: &mut [u16], table: &[u16; 2048], w: u32)
    requires { Per PER × (length out.old ≡ 4 * PER) }
    ensures { out.new ≡ painted out.old 0 (4 * PER) (word_ink table.now w PER) }
{
    for part in 0..PER / 2 {
        let first = 8 * part;
        out[first..first + 8].copy_from_slice(&eight::<PER>(table, w, first));
    }
}

// All pixels of a list of words.
fn words<const PER: usize>(out: &mut [u16], table: &[u16; 2048], video: &[u32])
    requires { Per PER × (length out.old ≡ length video.now * (4 * PER)) }
    ensures { out.new ≡ painted out.old 0 (length out.old) (words_ink table.now video.now PER) }
{
    for (q, w) in video.iter().enumerate() {
        let first = q * (4 * PER);
        word::<PER>(&mut out[first..first + 4 * PER], table, *w);
    }
}

impl Painter<'_> {
    // The same by depth: each has a loop of its own in the machine's code, and eight cells are stored at once; at depth 8, where each is
    // read by itself, four.
    pub fn shown(&self, out: &mut [u16], video: &[u32])
        requires { length out.old ≡ length video.now * (32 / self.now.s.depth) }
        ensures { out.new ≡ painted out.old 0 (length out.old) (words_ink self.now.table.now video.now (8 / self.now.s.depth)) }
    {
        match self.s.depth {
            8 => quad_words(out, self.quads, video),
            4 => words::<2>(out, self.table, video),
            2 => words::<4>(out, self.table, video),
            _ => words::<8>(out, self.table, video),
        }
    }
}
