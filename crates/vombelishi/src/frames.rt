// The frame and one raster of it.
ghost use Rattle.std.specs.Prelude.{◌≡◌, length};
ghost use Rattle.vombelishi.specs.Code.{answer_code};
ghost use Rattle.vombelishi.specs.Pictures.{frame_call, frame_call_leaves, raster_call, raster_call_leaves};

use crate::code::{answered, refused};
use crate::record::Lists;
use registers::units::Rasters;

// All N·V cells; 13 for slices shorter than 64, then the setting's, 11, 13.
#[tactic(auto, unfolding(crate::specs::Pictures::frame_call, crate::specs::Pictures::frame_call_leaves))]
pub fn vom_frame(
    values: &[u32],
    written: &[u8],
    video: &[u32],
    cursor: &[u32],
    cells: &mut [u16],
) -> u64
    ensures { (result ≡ answer_code (frame_call values.now written.now video.now cursor.now (length cells.old)))
        × (cells.new
        ≡ frame_call_leaves values.now written.now video.now cursor.now cells.old) }
{
    match Lists::of(values, written) {
        Err(why) => refused(why),
        Ok(lists) => answered(frame::frame(lists.registers(), video, cursor, cells)),
    }
}

// The N cells of raster y; 13 for slices shorter than 64, then the setting's, 11, 12, 13.
#[tactic(auto, unfolding(crate::specs::Pictures::raster_call, crate::specs::Pictures::raster_call_leaves))]
pub fn vom_raster(
    values: &[u32],
    written: &[u8],
    video: &[u32],
    cursor: &[u32],
    y: u16,
    cells: &mut [u16],
) -> u64
    ensures { (result ≡ answer_code (raster_call values.now written.now video.now cursor.now y (length cells.old)))
        × (cells.new
        ≡ raster_call_leaves values.now written.now video.now cursor.now y cells.old) }
{
    match Lists::of(values, written) {
        Err(why) => refused(why),
        Ok(lists) => answered(frame::raster(lists.registers(), video, cursor, Rasters(y), cells)),
    }
}
