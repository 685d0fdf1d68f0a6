// Where a raster's words stand, and the mark count.
ghost use Rattle.std.specs.Prelude.{◌≡◌, length};
ghost use Rattle.refusals.specs.Refusals.{says};
ghost use Rattle.vombelishi.specs.Code.{answer_code, stored_by, cell_by};
ghost use Rattle.vombelishi.specs.Pictures.{found_told, words_call, marks_call};

use crate::code::{answered, refused};
use crate::put::store;
use crate::record::Lists;
use refusals::Refusal;
use registers::units::Rasters;
use stretch::found::{Stretch, find};

#[tactic(auto, using(refusals::proofs::Told::handed_on), unfolding(crate::specs::Pictures::found_told))]
fn find_words(values: &[u32], written: &[u8], video: &[u32], y: u16) -> Result<Stretch, Refusal>
    ensures { says result ≡ found_told values.now written.now video.now y }
{
    find(Lists::of(values, written)?.registers(), video, Rasters(y))
}

// The first word of raster y and how many there are: 0 and 0 where it is not displayed.
// 13 for slices shorter than 64, then the setting's, 11 for the video words, 12, then 13 for `place`.
#[tactic(auto, unfolding(crate::specs::Pictures::words_call))]
pub fn vom_raster_words(
    values: &[u32],
    written: &[u8],
    video: &[u32],
    y: u16,
    place: &mut [u64],
) -> u64
    ensures { (result ≡ answer_code (words_call values.now written.now video.now y (length place.old)))
        × (place.new
        ≡ stored_by (words_call values.now written.now video.now y (length place.old)) place.old) }
{
    match find_words(values, written, video, y) {
        Err(why) => refused(why),
        Ok(p) => answered(store(place, &[p.start as u64, p.count as u64])),
    }
}

#[tactic(auto, using(refusals::proofs::Told::handed_on), unfolding(crate::specs::Pictures::marks_call))]
fn count_marks(
    values: &[u32],
    written: &[u8],
    video: &[u32],
    cursor: &[u32],
    threshold: u8,
) -> Result<u32, Refusal>
    ensures { says result ≡ marks_call values.now written.now video.now cursor.now threshold }
{
    marks::marks(
        Lists::of(values, written)?.registers(),
        video,
        cursor,
        threshold,
    )
}

// The mark count; 13 for slices shorter than 64, then the setting's, 11.
pub fn vom_marks(
    values: &[u32],
    written: &[u8],
    video: &[u32],
    cursor: &[u32],
    threshold: u8,
    count: &mut u64,
) -> u64
    ensures { (result ≡ answer_code (marks_call values.now written.now video.now cursor.now threshold))
        × (count.new
        ≡ cell_by (marks_call values.now written.now video.now cursor.now threshold) count.old) }
{
    match count_marks(values, written, video, cursor, threshold) {
        Err(why) => refused(why),
        Ok(n) => {
            *count = u64::from(n);
            0
        }
    }
}
