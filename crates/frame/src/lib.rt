// The picture: every cell of the frame, by one rule.
#![tactic(auto)]

ghost use Rattle.std.specs.Prelude.{◌≡◌, length};
ghost use Rattle.refusals.specs.Refusals.{says};
ghost use Rattle.frame.specs.Frame.{frame_told, frame_leaves, raster_told, raster_leaves};

use cells::judge;
use paint::paint;
use refusals::{Refusal, refuse_if};
use registers::record::Registers;
use registers::units::Rasters;

mod bytes;
mod cursor;
mod decode;
mod display;
mod inks;
mod lines;
mod paint;
mod painter;
mod plain;
mod quads;
mod rows;

// All N·V cells of a frame, raster after raster; the lent cells beyond are untouched. Refusals: the setting's, 11, 13.
#[tactic(auto, using(refusals::proofs::Told::handed_on, crate::proofs::Calls::frame_then), unfolding(crate::specs::Frame::frame_leaves))]
pub fn frame(g: Registers, video: &[u32], cursor: &[u32], out: &mut [u16]) -> Result<(), Refusal>
    ensures told { says result ≡ frame_told g video.now cursor.now (length out.old) }
    ensures left { out.new ≡ frame_leaves g video.now cursor.now out.old }
{
    let s = judge(g, video, cursor)?;
    let cells = usize::from(s.n.0) * usize::from(s.v.0);
    refuse_if(out.len() < cells, Refusal::Short)?;
    paint(out, g, s, Rasters(0), s.v, video, cursor);
    Ok(())
}

// The N cells of raster y. Refusals: the setting's, 11, 12, 13.
#[tactic(auto, using(refusals::proofs::Told::handed_on, crate::proofs::Calls::raster_then), unfolding(crate::specs::Frame::raster_leaves))]
pub fn raster(
    g: Registers,
    video: &[u32],
    cursor: &[u32],
    y: Rasters,
    out: &mut [u16],
) -> Result<(), Refusal>
    ensures told { says result ≡ raster_told g video.now cursor.now y.0 (length out.old) }
    ensures left { out.new ≡ raster_leaves g video.now cursor.now y.0 out.old }
{
    let s = judge(g, video, cursor)?;
    refuse_if(y.0 >= s.v.0, Refusal::Raster)?;
    refuse_if(out.len() < usize::from(s.n.0), Refusal::Short)?;
    paint(out, g, s, y, Rasters(y.0 + 1), video, cursor);
    Ok(())
}
