// One strip of a picture, as a binary PPM file has it: its head, then a strip for each raster.
ghost use Rattle.std.specs.Prelude.{◌≡◌, ◌<◌, ◌≤◌, length};
ghost use Rattle.buffers.specs.Put.{Put};
ghost use Rattle.outputs.specs.Strip.{raster_strip, picture_strip, strip_at};

use crate::picture::Picture;
use crate::words::put_pair;
use registers::record::Registers;
use registers::units::Rasters;

// The bytes of raster y.
fn raster_strip(out: &mut [u8], p: &Picture<'_>, y: Rasters) -> usize
    requires { (6144 ≤ length out.old) × (y.0 < p.now.s.v.0) }
    ensures { Put out.old out.new 0 (raster_strip p.now.g p.now.s p.now.video.now p.now.cursor.now y.0) result }
{
    let mut cells = [0u16; 2048];
    pictures::guns(p.raster(y, &mut cells), out)
}

// Strip k of a picture.
fn picture_strip(out: &mut [u8], p: &Picture<'_>, k: usize) -> usize
    requires { 6144 ≤ length out.old }
    ensures { Put out.old out.new 0 (picture_strip p.now.g p.now.s p.now.video.now p.now.cursor.now k) result }
{
    if k == 0 {
        return put_pair(
            out,
            b"P6\n",
            u32::from(p.s.n.0),
            u32::from(p.s.v.0),
            b"\n255\n",
        );
    }
    if usize::from(p.s.v.0) < k {
        return 0;
    }
    raster_strip(out, p, Rasters((k - 1) as u16))
}

// Strip k of a picture, and its length: 0 is the head; no bytes past the last raster and for a refused picture.
pub fn strip(g: Registers, video: &[u32], cursor: &[u32], k: usize, out: &mut [u8; 6144]) -> usize
    ensures { Put out.old out.new 0 (strip_at g video.now cursor.now k) result }
{
    match Picture::of(g, video, cursor) {
        Ok(picture) => picture_strip(out, &picture, k),
        Err(_) => 0,
    }
}
