// A judged picture: an accepted setting, and as many words as its frame needs.
ghost use Rattle.std.specs.Prelude.{◌≡◌, ◌<◌};
ghost use Rattle.registers.specs.Setting.{raster_words};
ghost use Rattle.cells.specs.Pixel.{position, logical};
ghost use Rattle.cells.specs.inner.Known.{Picture};
ghost use Rattle.cells.specs.inner.Region.{InDisplay};
ghost use Rattle.marks.specs.Summaries.{displayed_rasters};
ghost use Rattle.marks.specs.inner.Known.{known};

use crate::pixels::pixel_at;
use registers::setting::Setting;
use registers::units::{Pixels, Rasters};

#[derive(Clone, Copy)]
pub struct Judged<'a> {
    pub s: Setting,
    pub video: &'a [u32],
    pub cursor: &'a [u32],
    ghost judged: { Picture s video.now cursor.now } by { Prim.hlevel known },
}

impl Judged<'_> {
    // How many rasters are displayed.
    pub fn rasters(&self) -> usize
        ensures { result ≡ displayed_rasters self.now.s }
    {
        usize::from(self.s.vde.height_from(self.s.vds).0)
    }

    // The words of a displayed raster.
    pub fn raster_words(&self) -> usize
        ensures { result ≡ raster_words self.now.s }
    {
        usize::from(self.s.de.0 - self.s.ds.0) * usize::from(self.s.depth) / 32
    }

    // Where a displayed position's pixel stands among all.
    fn place(&self, x: Pixels, y: Rasters) -> usize
        requires { InDisplay self.now.s x.0 y.0 }
        ensures { result ≡ position self.now.s x.0 y.0 }
    {
        let s = &self.s;
        // Widened first: differences of u16 take an instruction more a pixel, and one word replaced 2.3 to 3.6 % more.
        (usize::from(y.0) - usize::from(s.vds.0)) * (usize::from(s.de.0) - usize::from(s.ds.0))
            + (usize::from(x.0) - usize::from(s.ds.0))
    }

    // The logical pixel of a displayed position.
    pub fn pixel(&self, x: Pixels, y: Rasters) -> usize
        requires { InDisplay self.now.s x.0 y.0 }
        ensures { (result ≡ logical self.now.s self.now.video.now x.0 y.0) × (result < 256) }
    {
        pixel_at(self.video, usize::from(self.s.depth), self.place(x, y))
    }
}
