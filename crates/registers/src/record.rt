// The register record: for each slot (an address / 4) the data last stored there, and whether any was.
ghost use Rattle.std.specs.Prelude.{◌≡◌};
ghost use Rattle.refusals.specs.Table.{unless_refused};
ghost use Rattle.refusals.specs.Refusals.{says};
ghost use Rattle.registers.specs.Record.{slot_of, registers_by, fresh, stored_of, word_told, reserved};

use refusals::{Refusal, refuse_if};

// Two arrays and not one of `Option<u32>`: what an unwritten slot holds is read too (specs/Record:held_in), and C lends the two.
#[derive(Clone, Copy, PartialEq, Eq)]
pub struct Registers {
    pub values: [u32; Registers::SLOTS],
    pub written: [bool; Registers::SLOTS],
}

// The slot that a word names, by its highest six bits.
pub(crate) fn slot_of(word: u32) -> u32
    ensures { result ≡ slot_of word }
{
    word / 0x400_0000
}

// Whether no register has the address 4 · slot: those between the cursor's palette and the stereo registers, between the sound frequency
// and control, and beyond.
#[tactic(auto, using(crate::proofs::Reserved::gaps_reserved))]
pub fn is_reserved(slot: u32) -> bool
    ensures { result ≡ reserved slot }
{
    let slot = slot as usize;
    ((Registers::CURSOR_3 / 4 < slot) & (slot < Registers::STEREO_7 / 4))
        | ((Registers::SOUND_FREQUENCY / 4 < slot) & (slot < Registers::CONTROL / 4))
        | (Registers::CONTROL / 4 < slot)
}

impl Registers {
    // The record of what each slot holds, and whether it was written.
    pub fn of_slots(values: [u32; Self::SLOTS], written: [bool; Self::SLOTS]) -> Registers
        ensures { result ≡ registers_by values written }
    {
        Registers { values, written }
    }

    // A fresh record: nothing is written.
    pub fn new() -> Registers
        ensures { result ≡ fresh }
    {
        Self::of_slots([0u32; Self::SLOTS], [false; Self::SLOTS])
    }

    // One word stored where the record lies: that register is changed, or nothing where the address is reserved.
    #[tactic(auto, unfolding(crate::specs::Record::stored_of))]
    pub(crate) fn put(&mut self, word: u32)
        ensures { self.new ≡ stored_of self.old word }
    {
        if is_reserved(slot_of(word)) {
            return;
        }
        let slot = slot_of(word) as usize;
        self.values[slot] = word % 0x100_0000;
        self.written[slot] = true;
    }

    // One word stored: the record with that register changed, or as it came where the address is reserved.
    pub fn store(mut self, word: u32) -> Registers
        ensures { result ≡ stored_of self word }
    {
        self.put(word);
        self
    }

    // One word loaded alone: refusal 2 with detail 0 for a reserved address, and the record stays as it was.
    #[tactic(auto, using(refusals::proofs::Told::handed_on), unfolding(crate::specs::Record::stored_of))]
    pub fn load_word(&mut self, word: u32) -> Result<(), Refusal>
        ensures told { says result ≡ word_told word }
        ensures left { self.new ≡ unless_refused (word_told word) self.old (stored_of self.old word) }
    {
        refuse_if(is_reserved(slot_of(word)), Refusal::Reserved(0))?;
        self.put(word);
        Ok(())
    }
}
