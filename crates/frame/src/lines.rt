// A raster's cells outside the display, in a line that is made anew only where they change: sync, blank, border, blank.
ghost use Rattle.std.specs.Prelude.{false, ◌≡◌};
ghost use Rattle.frame.specs.inner.Ink.{blank_of};
ghost use Rattle.frame.specs.inner.Lines.{anew, Edged};

use crate::painter::Painter;
use registers::setting::Setting;
use registers::units::Rasters;

fn blank(s: Setting, y: Rasters) -> u16
    ensures { result ≡ blank_of s y.0 }
{
    if y.0 < s.vs.0 { 2 * 8192 } else { 0 }
}

// Whether the line of the raster before, if there is one, is not raster y's.
fn is_anew(s: Setting, first: Rasters, y: Rasters) -> bool
    ensures { result ≡ anew s first.0 y.0 }
{
    (y.0 == first.0) | (y.0 == s.vs.0) | (y.0 == s.vbs.0) | (y.0 == s.vbe.0)
}

impl Painter<'_> {
    fn edges(&self, line: &mut [u16; 2048], y: Rasters)
        ensures { Edged self.now.s self.now.pens.now y.0 line.new }
    {
        let s = self.s;
        let empty = blank(s, y);
        line[..usize::from(s.hs.0)].fill(empty + 8192);
        if (s.vbs.0..s.vbe.0).contains(&y.0) {
            line[usize::from(s.hs.0)..usize::from(s.bs.0)].fill(empty);
            line[usize::from(s.bs.0)..usize::from(s.be.0)].fill(self.pens[0]);
            line[usize::from(s.be.0)..usize::from(s.n.0)].fill(empty);
            return;
        }
        line[usize::from(s.hs.0)..usize::from(s.n.0)].fill(empty);
    }

    // Raster y's line, from that of the raster before.
    pub fn renew(&self, line: &mut [u16; 2048], first: Rasters, y: Rasters)
        requires { anew self.now.s first.0 y.0 ≡ false → Edged self.now.s self.now.pens.now y.0 line.old }
        ensures { Edged self.now.s self.now.pens.now y.0 line.new }
    {
        if is_anew(self.s, first, y) {
            self.edges(line, y);
        }
    }
}
