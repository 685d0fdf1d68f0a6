// Marks per raster: made afresh, and kept where one video word is replaced.
ghost use Rattle.std.specs.Prelude.{◌≡◌, length};
ghost use Rattle.vombelishi.specs.Code.{answer_code};
ghost use Rattle.vombelishi.specs.Summaries.{summaries_call, summaries_call_leaves, replace_call, video_call_leaves, replace_call_leaves};

use crate::code::{answered, refused};
use crate::record::Lists;

// Three numbers to a displayed raster; 13 for slices shorter than 64, then the setting's, 11, 13.
#[tactic(auto, unfolding(crate::specs::Summaries::summaries_call, crate::specs::Summaries::summaries_call_leaves))]
pub fn vom_summaries(
    values: &[u32],
    written: &[u8],
    video: &[u32],
    cursor: &[u32],
    threshold: u8,
    entries: &mut [u16],
) -> u64
    ensures { (result ≡ answer_code (summaries_call values.now written.now video.now cursor.now (length entries.old)))
        × (entries.new
        ≡ summaries_call_leaves values.now written.now video.now cursor.now threshold entries.old) }
{
    match Lists::of(values, written) {
        Err(why) => refused(why),
        Ok(lists) => {
            answered(marks::summaries::summaries(
                lists.registers(),
                video,
                cursor,
                threshold,
                entries,
            ))
        },
    }
}

// One word, and its raster's three numbers; 13 for slices shorter than 64, then the setting's, 11, 18, 13.
#[tactic(auto, unfolding(crate::specs::Summaries::replace_call, crate::specs::Summaries::video_call_leaves, crate::specs::Summaries::replace_call_leaves))]
pub fn vom_replace(
    values: &[u32],
    written: &[u8],
    video: &mut [u32],
    cursor: &[u32],
    threshold: u8,
    index: usize,
    word: u32,
    entries: &mut [u16],
) -> u64
    ensures { (result ≡ answer_code
        (replace_call values.now written.now video.old cursor.now index (length entries.old)))
        × (video.new
        ≡ video_call_leaves values.now written.now video.old cursor.now index word (length entries.old))
        × (entries.new
        ≡ replace_call_leaves values.now written.now video.old cursor.now threshold index word entries.old) }
{
    match Lists::of(values, written) {
        Err(why) => refused(why),
        Ok(lists) => {
            answered(marks::summaries::replace(
                lists.registers(),
                video,
                cursor,
                threshold,
                index,
                word,
                entries,
            ))
        },
    }
}
