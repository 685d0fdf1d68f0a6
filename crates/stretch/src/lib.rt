// The words of one displayed raster: a part of the caller's own list.
#![tactic(auto)]

pub mod found;

ghost use Rattle.std.specs.Prelude.{◌≡◌};
ghost use Rattle.refusals.specs.Refusals.{says};
ghost use Rattle.stretch.specs.Stretch.{stretch_told, PartOf, answer_told};

use crate::found::find;
use refusals::Refusal;
use registers::record::Registers;
use registers::units::Rasters;

// The words of raster y, in the list's own memory; none where it is not displayed, or the call is refused.
pub fn raster_words(g: Registers, video: &[u32], y: Rasters) -> &[u32]
    ensures { PartOf video.entry result (stretch_told g video.now y.0) }
{
    match find(g, video, y) {
        Ok(stretch) => &video[stretch.start..stretch.start + stretch.count],
        Err(_) => &video[..0],
    }
}

// The refusal of the call above on the same inputs, or none.
#[tactic(auto, using(refusals::proofs::Told::handed_on))]
pub fn raster_words_answer(g: Registers, video: &[u32], y: Rasters) -> Result<(), Refusal>
    ensures { says result ≡ answer_told (stretch_told g video.now y.0) }
{
    find(g, video, y)?;
    Ok(())
}
