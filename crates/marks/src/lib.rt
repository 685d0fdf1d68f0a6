// Marks, without a frame: bright display cells counted over the frame, and per raster, with the least and the greatest grey.
#![tactic(auto)]

mod count;
mod cover;
mod entries;
pub mod entry;
mod extremes;
mod holds;
mod judged;
mod part;
mod pixels;
mod rasters;
mod shown;
mod spans;
pub mod summaries;
mod tables;
mod walk;

ghost use Rattle.std.specs.Prelude.{◌≡◌};
ghost use Rattle.refusals.specs.Refusals.{says};
ghost use Rattle.marks.specs.Marks.{marks_told};

use crate::judged::Judged;
use cells::judge;
use refusals::Refusal;
use registers::record::Registers;

// How many code 5 cells of the frame have a grey at or above the threshold.
#[tactic(auto, using(refusals::proofs::Told::handed_on, crate::proofs::Answers::marks_then))]
pub fn marks(g: Registers, video: &[u32], cursor: &[u32], threshold: u8) -> Result<u32, Refusal>
    ensures { says result ≡ marks_told g video.now cursor.now threshold }
{
    let s = judge(g, video, cursor)?;
    let picture = Judged { s, video, cursor };
    Ok(picture.count(g, threshold))
}
