// The cursor over one raster: its up to 32 positions, cut to the border.
ghost use Rattle.std.specs.Prelude.{◌&&◌, ◌≡◌, ◌+◌, ◌/◌, ◌<◌, length};
ghost use Rattle.buffers.specs.Painted.{painted};
ghost use Rattle.cells.specs.Cell.{within};
ghost use Rattle.frame.specs.inner.Ink.{pair_in, cover_ink};

use crate::painter::Painter;
use registers::setting::Setting;
use registers::units::Rasters;

// Pair i of the words from the first given on.
#[tactic(auto, unfolding(crate::specs::inner::Ink::pair_in))]
fn pair(cursor: &[u32], first: usize, i: usize) -> usize
    requires { first + i / 16 < length cursor.now }
    ensures { result ≡ pair_in cursor.now first i }
{
    ((cursor[first + i / 16] >> (2 * (i % 16))) % 4) as usize
}

// The cursor is on in raster y, where the border is.
fn pointed(s: Setting, y: Rasters) -> bool
    ensures { result ≡ s.cursor && within s.vcs.0 s.vce.0 y.0 && within s.vbs.0 s.vbe.0 y.0 }
{
    s.cursor & (s.vcs.0..s.vce.0).contains(&y.0) & (s.vbs.0..s.vbe.0).contains(&y.0)
}

impl Painter<'_> {
    pub fn cover(&self, out: &mut [u16], y: Rasters)
        requires { length out.old ≡ self.now.s.n.0 }
        ensures { out.new ≡ painted out.old 0 self.now.s.n.0
            (cover_ink self.now.s self.now.pens.now self.now.cursor.now y.0 out.old) }
    {
        let s = self.s;
        if !pointed(s, y) {
            return;
        }
        let start = usize::from(s.cx.0);
        let low = usize::from(s.bs.width_from(s.cx).0);
        let high = usize::from(s.be.width_from(s.cx).0).min(32);
        let first = 2 * usize::from(y.0 - s.vcs.0);
        for i in low..high {
            let p = pair(self.cursor, first, i);
            if p != 0 {
                out[start + i] = self.pens[p];
            }
        }
    }
}
