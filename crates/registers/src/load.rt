// The two parts of loading a list of register words: whether it can be loaded, and all of it stored, in order. Outside this crate a list is loaded
// by the calls of `accept` alone.
ghost use Rattle.std.specs.Prelude.{◌≡◌, position};
ghost use Rattle.refusals.specs.Refusals.{says};
ghost use Rattle.registers.specs.Load.{applied, load_told};
ghost use Rattle.registers.specs.Record.{slot_of, reserved};

use crate::record::{Registers, is_reserved, slot_of};
use refusals::{Refusal, refuse_if};

// The first word whose address is reserved.
fn first_reserved(words: &[u32]) -> Option<usize>
    ensures { result ≡ position (λ word. reserved (slot_of word)) words.now }
{
    words.iter().position(|word| is_reserved(slot_of(*word)))
}

// Every word stored, in order.
#[tactic(auto, using(crate::proofs::Lists::applied_more, crate::proofs::Lists::applied_all))]
pub fn apply(registers: Registers, words: &[u32]) -> Registers
    ensures { result ≡ applied registers words.now }
{
    let mut g = registers;
    for word in words {
        g.put(*word);
    }
    g
}

// Whether a list can be loaded, into whatever record: 1, 2.
#[tactic(auto, using(refusals::proofs::Told::handed_on, crate::proofs::Lists::leading_position), unfolding(crate::specs::Load::load_told))]
pub fn judge_words(words: &[u32]) -> Result<(), Refusal>
    ensures { says result ≡ load_told words.now }
{
    refuse_if(words.len() > Registers::MOST_WORDS, Refusal::TooManyWords)?;
    match first_reserved(words) {
        Some(first) => Err(Refusal::Reserved(first as u32)),
        None => Ok(()),
    }
}
