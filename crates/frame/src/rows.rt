// One raster with its cursor, and rasters one after another.
ghost use Rattle.std.specs.Prelude.{◌≡◌, ◌*◌, ◌-◌, ◌≤◌, length};
ghost use Rattle.buffers.specs.Painted.{painted};
ghost use Rattle.frame.specs.inner.Lines.{Edged};
ghost use Rattle.frame.specs.inner.Ink.{ink, rows_ink};

use crate::painter::Painter;
use registers::units::Rasters;

impl Painter<'_> {
    fn row(&self, out: &mut [u16], y: Rasters, line: &[u16; 2048])
        requires { (length out.old ≡ self.now.s.n.0) × Edged self.now.s self.now.pens.now y.0 line.now }
        ensures { out.new ≡ painted out.old 0 self.now.s.n.0
            (ink self.now.s self.now.pens.now self.now.table.now self.now.video.now self.now.cursor.now y.0) }
    {
        self.plain(out, y, line);
        self.cover(out, y);
    }

    // The rasters from the first up to the end, one after the other from the first place on.
    pub fn rows(&self, out: &mut [u16], first: Rasters, end: Rasters)
        requires { (self.now.s.n.0 * (end.0 - first.0) ≤ length out.old) × (first.0 ≤ end.0) }
        ensures { out.new ≡ painted out.old 0 (self.now.s.n.0 * (end.0 - first.0))
            (rows_ink self.now.s self.now.pens.now self.now.table.now self.now.video.now self.now.cursor.now first.0) }
    {
        let n = usize::from(self.s.n.0);
        let mut line = [0; 2048];
        for y in first.0..end.0 {
            self.renew(&mut line, first, Rasters(y));
            let at = usize::from(y - first.0) * n;
            self.row(&mut out[at..at + n], Rasters(y), &line);
        }
    }
}
