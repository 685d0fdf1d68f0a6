// One block of a sound, as a WAV file has it: its head, then the samples of 256 words a block.
ghost use Rattle.std.specs.Prelude.{◌≡◌, ◌*◌, ◌<◌, ◌≤◌, MatchOption, drop, length, take};
ghost use Rattle.buffers.specs.Put.{Put};
ghost use Rattle.registers.specs.Sound.{sound_told};
ghost use Rattle.refusals.specs.Table.{given};
ghost use Rattle.sound.specs.Play.{played_of};
ghost use Rattle.waves.specs.Samples.{samples_of};
ghost use Rattle.outputs.specs.Wave.{sound_block, wave_block, block_at};

use registers::record::Registers;

// How many words a block has.
const BLOCK: usize = 256;

// The words of block k, from 0, of which the last may have fewer; none past it. The blocks before it are not walked.
fn part(words: &[u32], k: usize) -> Option<&[u32]>
    ensures { MatchOption result (length words.now ≤ 256 * k) (λ part. (256 * k < length words.now) × (part.now ≡ take 256 (drop (256 * k) words.now))) }
{
    if words.len().div_ceil(BLOCK) <= k {
        return None;
    }
    let rest = &words[BLOCK * k..];
    Some(&rest[..BLOCK.min(rest.len())])
}

// The samples of at most a block of words.
fn put_played(out: &mut [u8], g: Registers, words: &[u32], mut counter: u32) -> usize
    requires { (4096 ≤ length out.old) × (length words.now ≤ 256) × (sound_told g ≡ given tt) }
    ensures { Put out.old out.new 0 (samples_of (played_of g counter words.now)) result }
{
    let mut values = [0i16; 2048];
    sound::play(g, words, &mut counter, &mut values).unwrap();
    waves::samples::samples(&values[..8 * words.len()], out)
}

// Block k, from 0, of the words' samples.
fn sound_block(out: &mut [u8], g: Registers, words: &[u32], k: usize) -> usize
    requires { (4096 ≤ length out.old) × (sound_told g ≡ given tt) }
    ensures { Put out.old out.new 0 (sound_block g words.now k) result }
{
    match part(words, k) {
        Some(part) => {
            let start = BLOCK * k;
            let counter = (4 * start % 0x1_0000_0000) as u32;
            put_played(out, g, part, counter)
        }
        None => 0,
    }
}

// Block k of the file of a record that sound accepts.
fn wave_block(out: &mut [u8], g: Registers, words: &[u32], k: usize) -> usize
    requires { (4096 ≤ length out.old) × (sound_told g ≡ given tt) }
    ensures { Put out.old out.new 0 (wave_block g words.now k) result }
{
    if k == 0 {
        return waves::head::head(g.sound_frequency(), words.len(), out);
    }
    sound_block(out, g, words, k - 1)
}

// Block k of a sound, and its length: 0 is the head; no bytes past the last block and for a refused sound.
pub fn block(g: Registers, words: &[u32], k: usize, out: &mut [u8; 4096]) -> usize
    ensures { Put out.old out.new 0 (block_at g words.now k) result }
{
    match g.check_sound() {
        Ok(()) => wave_block(out, g, words, k),
        Err(_) => 0,
    }
}
