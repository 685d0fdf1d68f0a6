// Where a raster's words stand in the caller's list.
ghost use Rattle.std.specs.Prelude.{◌≡◌};
ghost use Rattle.refusals.specs.Refusals.{says};
ghost use Rattle.registers.specs.inner.Accepted.{Accepted};
ghost use Rattle.stretch.specs.Stretch.{stretch_of, stretch_told};

use refusals::{Refusal, refuse_if};
use registers::record::Registers;
use registers::setting::Setting;
use registers::units::Rasters;

#[derive(Clone, Copy)]
pub struct Stretch {
    pub start: usize,
    pub count: usize,
}

// What a raster has that is not displayed.
const NONE: Stretch = Stretch { start: 0, count: 0 };

// Each displayed raster has w words, from the last one's end on.
fn stretch_of(s: Setting, y: Rasters) -> Stretch
    requires { Accepted s }
    ensures { result ≡ stretch_of s y.0 }
{
    if !(s.vds.0..s.vde.0).contains(&y.0) {
        return NONE;
    }
    let w = usize::from(s.de.0 - s.ds.0) * usize::from(s.depth) / 32;
    Stretch {
        start: usize::from(y.0 - s.vds.0) * w,
        count: w,
    }
}

// The stretch of a raster. Refusals: the setting's, 11 for the video count alone, 12.
#[tactic(auto, using(refusals::proofs::Told::handed_on, registers::proofs::Accepting::accept_none, crate::proofs::Answers::stretch_then))]
pub fn find(mut g: Registers, video: &[u32], y: Rasters) -> Result<Stretch, Refusal>
    ensures { says result ≡ stretch_told g video.now y.0 }
{
    let s = g.load_and_check(&[])?;
    refuse_if(video.len() as u64 != s.video_words(), Refusal::WordCount)?;
    refuse_if(s.v.0 <= y.0, Refusal::Raster)?;
    Ok(stretch_of(s, y))
}
