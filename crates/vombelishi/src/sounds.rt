// Sound values, and the pair of one byte.
ghost use Rattle.std.specs.Prelude.{◌≡◌, length};
ghost use Rattle.vombelishi.specs.Code.{answer_code, stored_by};
ghost use Rattle.vombelishi.specs.Sounds.{sound_call, sound_leaves, counter_leaves, pair_call};

use crate::code::{answered, refused};
use crate::put::store;
use crate::record::Lists;

// 8 values for each word. The cell holds the counter before the first byte, and afterwards that after the last.
// 13 for slices shorter than 64, then 3, 10, 13 for `out`.
#[tactic(auto, unfolding(crate::specs::Sounds::sound_call, crate::specs::Sounds::sound_leaves, crate::specs::Sounds::counter_leaves))]
pub fn vom_sound(
    values: &[u32],
    written: &[u8],
    words: &[u32],
    counter: &mut u32,
    out: &mut [i16],
) -> u64
    ensures { (result ≡ answer_code (sound_call values.now written.now (length words.now) (length out.old)))
        × (counter.new
        ≡ counter_leaves values.now written.now words.now (length out.old) counter.old)
        × (out.new
        ≡ sound_leaves values.now written.now words.now counter.old out.old) }
{
    match Lists::of(values, written) {
        Err(why) => refused(why),
        Ok(lists) => answered(sound::play(lists.registers(), words, counter, out)),
    }
}

// One byte's left and right value in sixths; 10 for a stereo value 0 modulo 8, then 13 for `pair`.
#[tactic(auto, unfolding(crate::specs::Sounds::pair_call))]
pub fn vom_sound_pair(byte: u8, stereo: u8, pair: &mut [i16]) -> u64
    ensures { (result ≡ answer_code (pair_call byte stereo (length pair.old)))
        × (pair.new ≡ stored_by (pair_call byte stereo (length pair.old)) pair.old) }
{
    match sound::pair(byte, stereo) {
        Err(why) => refused(why),
        Ok(sides) => answered(store(pair, &[sides.left, sides.right])),
    }
}
