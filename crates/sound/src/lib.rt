// Sound: signed sixths, left then right, of each byte of a list of words.
#![tactic(auto)]

mod amplitude;
mod sixths;
mod values;

ghost use Rattle.std.specs.Prelude.{◌≡◌, length};
ghost use Rattle.refusals.specs.Refusals.{says};
ghost use Rattle.sound.specs.Play.{play_told, play_leaves, play_counts};
ghost use Rattle.sound.specs.Pair.{pair_told};

use refusals::{Refusal, refuse_if};
use registers::record::Registers;
use sixths::Sixths;
use values::Channels;

// One byte's two values, in sixths.
#[derive(Clone, Copy)]
pub struct Sides {
    pub left: i16,
    pub right: i16,
}

// One byte's pair for a stereo value, of which the three lowest bits count: 10 where they are 0.
#[tactic(auto, using(refusals::proofs::Told::handed_on), unfolding(crate::specs::Pair::pair_told))]
pub fn pair(byte: u8, stereo: u8) -> Result<Sides, Refusal>
    ensures { says result ≡ pair_told byte stereo }
{
    let bits = stereo % 8;
    refuse_if(bits == 0, Refusal::Sound(0))?;
    Ok(Sixths::of(bits).sides(byte))
}

// The words' values in lent memory, from its first place on: 8 for each word. 3, 10, then 13. Then the counter is the one after the last
// byte, and where the answer is a refusal it is as it came.
#[tactic(auto, using(refusals::proofs::Told::handed_on, crate::proofs::Accepted::play_rows))]
pub fn play(
    registers: Registers,
    words: &[u32],
    counter: &mut u32,
    out: &mut [i16],
) -> Result<(), Refusal>
    ensures told { says result ≡ play_told registers (length words.now) (length out.old) }
    ensures counted { counter.new ≡ play_counts registers words.now counter.old out.old }
    ensures left { out.new ≡ play_leaves registers words.now counter.old out.old }
{
    registers.check_sound()?;
    refuse_if(out.len() / 8 < words.len(), Refusal::Short)?;
    *counter = Channels::of(registers).play(words, *counter, out);
    Ok(())
}
