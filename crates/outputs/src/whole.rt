// A picture's text, whole: measured by one pass over its lines, and written by another.
ghost use Rattle.std.specs.Prelude.{◌≡◌, ◌≤◌, length};
ghost use Rattle.std.proofs.lemmas.List.Edits.{sets};
ghost use Rattle.buffers.specs.Put.{Put, text_in};
ghost use Rattle.outputs.specs.Text.{picture_text};

use crate::picture::Picture;
use crate::text::{picture_line, refused};
use crate::words::put_bytes;
use registers::record::Registers;

// How many bytes the text has: the head, and a line for each raster.
fn measure(p: &Picture<'_>) -> usize
    ensures { result ≡ length (picture_text p.now.g p.now.video.now p.now.cursor.now) }
{
    let lines = 1 + usize::from(p.s.v.0);
    let mut bytes = [0u8; 8256];
    let mut total = 0;
    for k in 0..lines {
        total += picture_line(&mut bytes, p, k);
    }
    total
}

// All lines stored, one after another.
fn put_lines(p: &Picture<'_>, out: &mut [u8])
    requires { length (picture_text p.now.g p.now.video.now p.now.cursor.now) ≤ length out.old }
    ensures { out.new ≡ sets out.old 0 (picture_text p.now.g p.now.video.now p.now.cursor.now) }
{
    let lines = 1 + usize::from(p.s.v.0);
    let mut bytes = [0u8; 8256];
    let mut at = 0;
    for k in 0..lines {
        let n = picture_line(&mut bytes, p, k);
        at = put_bytes(out, at, &bytes[..n]);
    }
}

// All lines, and how many bytes; none where they do not fit.
fn put_picture(p: &Picture<'_>, out: &mut [u8]) -> usize
    ensures { Put out.old out.new 0 (text_in (length out.old) (picture_text p.now.g p.now.video.now p.now.cursor.now)) result }
{
    let n = measure(p);
    if out.len() < n {
        return 0;
    }
    put_lines(p, out);
    n
}

// The text of a picture, refused or not, and its length; no bytes where it does not fit.
pub fn text(g: Registers, video: &[u32], cursor: &[u32], out: &mut [u8]) -> usize
    ensures { Put out.old out.new 0
        (text_in (length out.old) (picture_text g video.now cursor.now)) result }
{
    match Picture::of(g, video, cursor) {
        Ok(picture) => put_picture(&picture, out),
        Err(why) => refused(why, out),
    }
}
