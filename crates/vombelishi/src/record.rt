// A register record from two slices: the first 64 of each count, and a byte that is not 0 means written.
ghost use Rattle.std.specs.Prelude.{◌≡◌, ◌≤◌, length, MatchResult, OnOk};
ghost use Rattle.refusals.specs.Table.{given};
ghost use Rattle.refusals.specs.Refusals.{refusal};
ghost use Rattle.vombelishi.specs.Record.{record_of, record_told};

use refusals::Refusal;
use registers::record::Registers;

// Two slices that are long enough. The record is made of them where it is used: in a `Result` it would be copied once more, which takes 40 of
// the 2,719 instructions of a raster that is mixed.
#[derive(Clone, Copy)]
pub struct Lists<'a> {
    values: &'a [u32],
    written: &'a [u8],
    ghost long: { (64 ≤ length values.now) × (64 ≤ length written.now) },
}

impl<'a> Lists<'a> {
    // 13 where a slice is too short to be half a record.
    #[tactic(auto, unfolding(crate::specs::Record::record_told))]
    pub fn of(values: &'a [u32], written: &'a [u8]) -> Result<Lists<'a>, Refusal>
        ensures told { MatchResult result
            (λ lists. given (record_of lists.values.now lists.written.now) ≡ record_told values.now written.now)
            (λ why. refusal why ≡ record_told values.now written.now) }
        ensures long { OnOk result ((64 ≤ length values.now) × (64 ≤ length written.now)) }
    {
        if values.len() < 64 || written.len() < 64 {
            return Err(Refusal::Short);
        }
        Ok(Lists { values, written })
    }

    pub fn registers(self) -> Registers
        ensures { result ≡ record_of self.entry.values.now self.entry.written.now }
    {
        let mut numbers = [0; 64];
        numbers.copy_from_slice(&self.values[..64]);
        let mut flags = [false; 64];
        for (k, flag) in flags.iter_mut().enumerate() {
            *flag = self.written[k] != 0;
        }
        Registers::of_slots(numbers, flags)
    }
}
