// Needed registers, group by group: the lowest that is unwritten.
ghost use Rattle.std.specs.Prelude.{◌≡◌, ◌<◌, ◌≤◌};
ghost use Rattle.registers.specs.Lowest.{lowest_slot};
ghost use Rattle.registers.specs.Needed.{missing};
ghost use Rattle.registers.specs.inner.Groups.{unwritten_among};

use crate::record::Registers;

impl Registers {
    // The lowest unwritten slot from that of the first address to that of the last.
    pub(crate) fn lowest_unwritten(&self, first: usize, last: usize) -> Option<usize>
        requires { (first ≤ last) × (last < 256) }
        ensures { result ≡ lowest_slot (unwritten_among self.now.written first last) }
    {
        for slot in first / 4..last / 4 + 1 {
            if !self.written[slot] {
                return Some(slot);
            }
        }
        None
    }

    // The lowest slot that is needed and unwritten. If control is unwritten, only it is reported.
    #[tactic(auto, using(crate::proofs::Missing::missing_control, crate::proofs::Missing::missing_groups))]
    pub(crate) fn lowest_missing(&self) -> Option<usize>
        ensures { result ≡ lowest_slot (missing self.now) }
    {
        if !self.written[Self::CONTROL / 4] {
            return Some(Self::CONTROL / 4);
        }
        // with the cursor on, its colours behind the border's, and its start behind the other horizontal values
        let (colours, across) = if self.cursor_on() {
            (Self::CURSOR_3, Self::HCSR)
        } else {
            (Self::BORDER, Self::HBER)
        };
        let entries = usize::from(self.entries_in_use());
        self.lowest_unwritten(Self::PALETTE_0, 4 * (entries - 1))
            .or(self.lowest_unwritten(Self::BORDER, colours))
            .or(self.lowest_unwritten(Self::HCR, across))
            .or(self.lowest_unwritten(Self::VCR, Self::VBER))
    }
}
