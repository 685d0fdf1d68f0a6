// Judging a setting: refusals 3 to 9 in ascending order with 19 behind 6, or the accepted setting. Outside this crate a record is checked by
// `load_and_check` alone.
ghost use Rattle.std.specs.Prelude.{◌≡◌, ◌*◌, ◌%◌};
ghost use Rattle.refusals.specs.Refusals.{says};
ghost use Rattle.registers.specs.Check.{
  horizontal_rule,
  sync_rule,
  display_rule,
  border_rule,
  vertical_rule,
  width_rule,
  cursor_rule,
  check_told,
};

use crate::record::Registers;
use crate::setting::Setting;
use crate::units::Pixels;
use refusals::{Refusal, refuse_if};

// The bits by which a raster of some width passes whole words.
fn odd_bits(width: Pixels, bits: u8) -> u32
    ensures { result ≡ width.0 * bits % 32 }
{
    u32::from(width.0) * u32::from(bits) % 32
}

impl Setting {
    // HS ≤ BS ≤ DS < DE ≤ BE ≤ N
    fn is_horizontal_right(self) -> bool
        ensures { result ≡ horizontal_rule self }
    {
        (self.hs <= self.bs)
            & (self.bs <= self.ds)
            & (self.ds < self.de)
            & (self.de <= self.be)
            & (self.be <= self.n)
    }

    // VS ≤ VBS ≤ VDS < VDE ≤ VBE ≤ V
    fn is_display_right(self) -> bool
        ensures { result ≡ display_rule self }
    {
        (self.vs <= self.vbs)
            & (self.vbs <= self.vds)
            & (self.vds < self.vde)
            & (self.vde <= self.vbe)
            & (self.vbe <= self.v)
    }

    // VS ≤ VBS < VBE ≤ V
    fn is_border_right(self) -> bool
        ensures { result ≡ border_rule self }
    {
        (self.vs <= self.vbs) & (self.vbs < self.vbe) & (self.vbe <= self.v)
    }

    fn is_vertical_right(self) -> bool
        ensures { result ≡ vertical_rule self }
    {
        (self.vs <= self.v)
            & (self.is_display_right()
                | (!self.display_on() & (!self.border_on() | self.is_border_right())))
    }

    // (DE-DS)·d is a multiple of 32
    fn is_width_right(self) -> bool
        ensures { result ≡ width_rule self }
    {
        odd_bits(self.de.width_from(self.ds), self.depth) == 0
    }
}

impl Registers {
    // 6·HS ≥ 5·f where the cursor is on
    fn is_sync_right(self, s: Setting) -> bool
        ensures { result ≡ sync_rule self s }
    {
        !s.cursor | (5 * u32::from(self.pixel_rate()) <= 6 * u32::from(s.hs.0))
    }

    fn is_cursor_right(self, s: Setting) -> bool
        ensures { result ≡ cursor_rule self s }
    {
        !s.cursor | ((self.sub_position() == 0) & (s.vce <= s.v))
    }

    // The accepted setting, or the first refusal of 3 to 6, 19, 7 to 9.
    #[tactic(auto, using(refusals::proofs::Told::handed_on, crate::proofs::First::slots), unfolding(crate::specs::Check::check_told))]
    pub(crate) fn check(&self) -> Result<Setting, Refusal>
        ensures { says result ≡ check_told self.now }
    {
        if let Some(slot) = self.lowest_missing() {
            return Err(Refusal::Unwritten(4 * slot as u32));
        }
        let s = self.setting();
        refuse_if(self.is_test_mode(), Refusal::TestMode)?;
        refuse_if(self.is_interlaced(), Refusal::Interlace)?;
        refuse_if(!s.is_horizontal_right(), Refusal::Horizontal)?;
        refuse_if(!self.is_sync_right(s), Refusal::SyncWidth)?;
        refuse_if(!s.is_vertical_right(), Refusal::Vertical)?;
        refuse_if(!s.is_width_right(), Refusal::Width)?;
        refuse_if(!self.is_cursor_right(s), Refusal::Cursor)?;
        Ok(s)
    }
}
