// Numbers of an answer stored in the slice that is lent for them.
ghost use Rattle.std.specs.Prelude.{◌≡◌, [], ◌∷◌, ltb, length};
ghost use Rattle.refusals.specs.Table.{row, judged, given};
ghost use Rattle.refusals.specs.Refusals.{says};
ghost use Rattle.vombelishi.specs.Code.{with_room, stored_by};

use refusals::{Refusal, refuse_if};

// All of them from the first place on; 13 where there is no room for them.
#[tactic(auto, using(refusals::proofs::Told::handed_on, buffers::proofs::Sets::sets_turn, buffers::proofs::Sets::sets_done))]
pub fn store<T: Copy>(out: &mut [T], values: &[T]) -> Result<(), Refusal>
    ensures told { says result ≡ judged (row 13 (ltb (length out.old) (length values.now)) 0 ∷ []) tt }
    ensures left { out.new ≡ stored_by (with_room (length values.now) (length out.old) (given values.now)) out.old }
{
    refuse_if(out.len() < values.len(), Refusal::Short)?;
    // a number a turn: copied together, a byte's pair would be read back before its two halves are stored
    for (k, value) in values.iter().enumerate() {
        out[k] = *value;
    }
    Ok(())
}
