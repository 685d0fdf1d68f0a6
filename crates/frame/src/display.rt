// The display's stretch of one raster: its words, from the table of cells.
ghost use Rattle.std.specs.Prelude.{◌≡◌, ◌+◌, ◌≤◌, ◌<◌, length};
ghost use Rattle.buffers.specs.Painted.{painted};
ghost use Rattle.registers.specs.Setting.{raster_words};
ghost use Rattle.registers.specs.inner.Accepted.{Accepted};
ghost use Rattle.cells.specs.Pixel.{first_word};
ghost use Rattle.frame.specs.inner.Ink.{display_ink};

use crate::painter::Painter;
use registers::setting::Setting;
use registers::units::Rasters;

// How many words a displayed raster has.
fn raster_words(s: Setting) -> usize
    requires { Accepted s }
    ensures { result ≡ raster_words s }
{
    usize::from(s.de.0 - s.ds.0) * usize::from(s.depth) / 32
}

// The first of them.
fn first_word(s: Setting, y: Rasters) -> usize
    requires { Accepted s × (s.vds.0 ≤ y.0) }
    ensures { result ≡ first_word s y.0 }
{
    usize::from(y.0 - s.vds.0) * raster_words(s)
}

impl Painter<'_> {
    pub fn display(&self, out: &mut [u16], y: Rasters)
        requires { (self.now.s.ds.0 + length out.old ≡ self.now.s.de.0) × (self.now.s.vds.0 ≤ y.0) × (y.0 < self.now.s.vde.0) }
        ensures { out.new ≡ painted out.old 0 (length out.old)
            (λ j. display_ink self.now.s self.now.table.now self.now.video.now y.0 (self.now.s.ds.0 + j)) }
    {
        let first = first_word(self.s, y);
        let words = &self.video[first..first + raster_words(self.s)];
        self.shown(out, words);
    }
}
