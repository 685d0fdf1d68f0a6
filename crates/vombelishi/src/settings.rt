// The numbers of an accepted setting, and records judged for sound.
ghost use Rattle.std.specs.Prelude.{◌≡◌};
ghost use Rattle.registers.specs.inner.Accepted.{Accepted};
ghost use Rattle.vombelishi.specs.Code.{answer_code};
ghost use Rattle.vombelishi.specs.Settings.{numbers_of, check_sound_call};

use crate::code::{answered, refused};
use crate::record::Lists;
use registers::setting::Setting;

#[tactic(auto, using(registers::proofs::Words::video_most, registers::proofs::Words::cursor_most), unfolding(crate::specs::Settings::numbers_of))]
pub(crate) fn numbers(s: Setting) -> [u32; 21]
    requires { Accepted s }
    ensures { result ≡ numbers_of s }
{
    [
        u32::from(s.n.0),
        u32::from(s.hs.0),
        u32::from(s.bs.0),
        u32::from(s.ds.0),
        u32::from(s.de.0),
        u32::from(s.be.0),
        u32::from(s.cx.0),
        u32::from(s.v.0),
        u32::from(s.vs.0),
        u32::from(s.vbs.0),
        u32::from(s.vds.0),
        u32::from(s.vde.0),
        u32::from(s.vbe.0),
        u32::from(s.vcs.0),
        u32::from(s.vce.0),
        u32::from(s.depth),
        u32::from(s.display_on()),
        u32::from(s.border_on()),
        u32::from(s.cursor),
        s.video_words() as u32,
        s.cursor_words() as u32,
    ]
}

// Whether the record can be played; 13 for slices shorter than 64, then 3, 10.
#[tactic(auto, unfolding(crate::specs::Settings::check_sound_call))]
pub fn vom_check_sound(values: &[u32], written: &[u8]) -> u64
    ensures { result ≡ answer_code (check_sound_call values.now written.now) }
{
    match Lists::of(values, written) {
        Err(why) => refused(why),
        Ok(lists) => answered(lists.registers().check_sound()),
    }
}
