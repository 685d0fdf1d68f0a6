// What the sync of a raster asks for, from a register record's numbers as they stand.
ghost use Rattle.std.specs.Prelude.{◌≡◌};
ghost use Rattle.queues.specs.Syncs.{cursor_ask, video_ask, sync_ask, is_cursor_ask, is_video_ask};

use crate::Kind;
use registers::record::Registers;
use registers::setting::Setting;

// The cursor's first raster, or every second one after while it shows.
fn is_cursor_ask(s: Setting, raster: u32) -> bool
    ensures { result ≡ is_cursor_ask s raster }
{
    let first = u32::from(s.vcs.0);
    s.cursor
        & (first <= raster)
        & (raster < u32::from(s.vce.0))
        & (raster.saturating_sub(first) % 2 == 0)
}

// The first displayed raster.
fn is_video_ask(s: Setting, raster: u32) -> bool
    ensures { result ≡ is_video_ask s raster }
{
    s.display_on() & (raster == u32::from(s.vds.0))
}

// How many words a raster's horizontal sync asks of a cursor queue.
#[tactic(auto, unfolding(crate::specs::Syncs::cursor_ask))]
pub fn cursor_ask(g: Registers, raster: u32) -> u32
    ensures { result ≡ cursor_ask g raster }
{
    if is_cursor_ask(g.setting(), raster) {
        4
    } else {
        0
    }
}

// How many words the end of a raster's horizontal sync asks of a video queue.
#[tactic(auto, unfolding(crate::specs::Syncs::video_ask))]
pub fn video_ask(g: Registers, raster: u32) -> u32
    ensures { result ≡ video_ask g raster }
{
    if is_video_ask(g.setting(), raster) {
        8
    } else {
        0
    }
}

// How many words a raster's sync, from its start to its end, asks of a queue of a kind.
#[tactic(auto, unfolding(crate::specs::Syncs::sync_ask))]
pub fn sync_ask(g: Registers, kind: u16, raster: u32) -> u32
    ensures { result ≡ sync_ask g kind raster }
{
    match Kind::from(kind) {
        Kind::Video => video_ask(g, raster),
        Kind::Cursor => cursor_ask(g, raster),
        Kind::Sound => 0,
    }
}
