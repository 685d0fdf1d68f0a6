// One line of a picture's text.
ghost use Rattle.std.specs.Prelude.{◌≡◌, ◌<◌, ◌≤◌, length};
ghost use Rattle.buffers.specs.Put.{Put, text_in};
ghost use Rattle.refusals.specs.Refusals.{why_of};
ghost use Rattle.outputs.specs.Text.{refused_line, picture_head, raster_line, picture_line, line_at};

use crate::line::put_line;
use crate::picture::Picture;
use crate::words::{put_bytes, put_head, put_refused};
use refusals::Refusal;
use registers::record::Registers;
use registers::units::Rasters;

// The threshold of the head's mark count.
const THRESHOLD: u8 = 128;

// The head of a picture.
fn head_line(out: &mut [u8], p: &Picture<'_>) -> usize
    requires { 8256 ≤ length out.old }
    ensures { Put out.old out.new 0 (picture_head p.now.g p.now.s p.now.video.now p.now.cursor.now) result }
{
    let marks = marks::marks(p.g, p.video, p.cursor, THRESHOLD).unwrap();
    put_head(
        out,
        u32::from(p.s.n.0),
        u32::from(p.s.v.0),
        p.video.len() as u32,
        marks,
    )
}

// The line of raster y.
fn raster_line(out: &mut [u8], p: &Picture<'_>, y: Rasters) -> usize
    requires { (8256 ≤ length out.old) × (y.0 < p.now.s.v.0) }
    ensures { Put out.old out.new 0 (raster_line p.now.g p.now.s p.now.video.now p.now.cursor.now y.0) result }
{
    let mut cells = [0u16; 2048];
    put_line(out, 0, p.raster(y, &mut cells))
}

// Line k of a picture.
pub(crate) fn picture_line(out: &mut [u8], p: &Picture<'_>, k: usize) -> usize
    requires { 8256 ≤ length out.old }
    ensures { Put out.old out.new 0 (picture_line p.now.g p.now.s p.now.video.now p.now.cursor.now k) result }
{
    if k == 0 {
        return head_line(out, p);
    }
    if usize::from(p.s.v.0) < k {
        return 0;
    }
    raster_line(out, p, Rasters((k - 1) as u16))
}

// Line k of a picture, and its length; no bytes past the last line. Line 0 is the head or the refusal.
pub fn line(g: Registers, video: &[u32], cursor: &[u32], k: usize, out: &mut [u8; 8256]) -> usize
    ensures { Put out.old out.new 0 (line_at g video.now cursor.now k) result }
{
    match Picture::of(g, video, cursor) {
        Ok(picture) => picture_line(out, &picture, k),
        Err(why) if k == 0 => put_refused(out, why),
        Err(_) => 0,
    }
}

// The line that refuses, and its length; no bytes where it does not fit.
pub fn refused(why: Refusal, out: &mut [u8]) -> usize
    ensures { Put out.old out.new 0 (text_in (length out.old) (refused_line (why_of why))) result }
{
    let mut line = [0u8; 64];
    let n = put_refused(&mut line, why);
    if out.len() < n {
        return 0;
    }
    put_bytes(out, 0, &line[..n])
}
