// Marks per raster, kept beside the plate: made afresh, and kept where one video word is replaced.
ghost use Rattle.std.specs.Prelude.{◌≡◌, length};
ghost use Rattle.refusals.specs.Refusals.{says};
ghost use Rattle.marks.specs.Summaries.{summaries_told, summaries_leaves, replace_told, video_leaves, replace_leaves};

use crate::entries::{put_entries, put_entry};
use crate::judged::Judged;
use crate::tables::{Shades, Tables};
use cells::judge;
use refusals::{Refusal, refuse_if};
use registers::record::Registers;

// The entries made afresh, three numbers to a displayed raster; the lent numbers beyond are untouched. Refusals: the setting's, 11, 13.
#[tactic(auto, using(crate::proofs::Calls::made), unfolding(crate::specs::Summaries::summaries_leaves))]
pub fn summaries(
    g: Registers,
    video: &[u32],
    cursor: &[u32],
    threshold: u8,
    out: &mut [u16],
) -> Result<(), Refusal>
    ensures told { says result ≡ summaries_told g video.now cursor.now (length out.old) }
    ensures left { out.new ≡ summaries_leaves g video.now cursor.now threshold out.old }
{
    let s = judge(g, video, cursor)?;
    let picture = Judged { s, video, cursor };
    refuse_if(out.len() < 3 * picture.rasters(), Refusal::Short)?;
    let shades = Shades::of(g, s.depth, threshold);
    put_entries(&picture, &Tables::of(shades, s.depth), out);
    Ok(())
}

// One video word replaced, and the entry of its raster made afresh; no other changes. Refusals: the setting's, 11, 18, 13.
#[tactic(auto, using(crate::proofs::Calls::replaced), unfolding(crate::specs::Summaries::video_leaves, crate::specs::Summaries::replace_leaves))]
pub fn replace(
    g: Registers,
    video: &mut [u32],
    cursor: &[u32],
    threshold: u8,
    index: usize,
    word: u32,
    out: &mut [u16],
) -> Result<(), Refusal>
    ensures told { says result ≡ replace_told g video.old cursor.now index (length out.old) }
    ensures left_video { video.new ≡ video_leaves g video.old cursor.now index word (length out.old) }
    ensures left { out.new ≡ replace_leaves g video.old cursor.now threshold index word out.old }
{
    let s = judge(g, video, cursor)?;
    refuse_if(video.len() <= index, Refusal::WordIndex)?;
    let rasters = usize::from(s.vde.height_from(s.vds).0);
    refuse_if(out.len() < 3 * rasters, Refusal::Short)?;
    video[index] = word;
    let picture = Judged { s, video, cursor };
    let shades = Shades::of(g, s.depth, threshold);
    let r = index / picture.raster_words();
    put_entry(out, r, picture.by_pixels(&shades, r));
    Ok(())
}
