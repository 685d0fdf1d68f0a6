// One raster with no cursor: its line, and the display's stretch in it.
ghost use Rattle.std.specs.Prelude.{◌≡◌, length};
ghost use Rattle.buffers.specs.Painted.{painted};
ghost use Rattle.frame.specs.inner.Ink.{lined_ink};

use crate::painter::Painter;
use registers::units::Rasters;

impl Painter<'_> {
    pub fn plain(&self, out: &mut [u16], y: Rasters, line: &[u16; 2048])
        requires { length out.old ≡ self.now.s.n.0 }
        ensures { out.new ≡ painted out.old 0 self.now.s.n.0
            (lined_ink self.now.s line.now self.now.table.now self.now.video.now y.0) }
    {
        let s = self.s;
        let n = usize::from(s.n.0);
        if !(s.vds.0..s.vde.0).contains(&y.0) {
            out.copy_from_slice(&line[..n]);
            return;
        }
        let ds = usize::from(s.ds.0);
        let de = usize::from(s.de.0);
        out[..ds].copy_from_slice(&line[..ds]);
        self.display(&mut out[ds..de], y);
        out[de..n].copy_from_slice(&line[de..n]);
    }
}
