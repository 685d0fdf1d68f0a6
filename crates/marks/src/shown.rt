// Display positions of a raster one by one, without those that the cursor covers.
ghost use Rattle.std.specs.Prelude.{◌≡◌, ◌-◌, ◌≤◌, ◌<◌};
ghost use Rattle.cells.specs.Cell.{covered, in_cursor};
ghost use Rattle.cells.specs.inner.Region.{InDisplay};
ghost use Rattle.marks.specs.inner.Seen.{Flagged};
ghost use Rattle.marks.specs.inner.Shown.{shown_at, shown_total, seen_at, seen_from};

use crate::cover::pair_at;
use crate::judged::Judged;
use crate::tables::Shades;
use registers::units::{Pixels, Rasters};

impl Judged<'_> {
    // Whether the cursor, where it is on, has the position.
    fn is_in_cursor(&self, x: Pixels, y: Rasters) -> bool
        ensures { result ≡ in_cursor self.now.s x.0 y.0 }
    {
        let s = &self.s;
        s.cursor & ((s.vcs <= y) & (y < s.vce)) & ((s.cx <= x) & (x.0 < s.cx.0 + 32))
    }

    // Whether it covers a displayed position.
    fn is_covered(&self, x: Pixels, y: Rasters) -> bool
        requires { InDisplay self.now.s x.0 y.0 }
        ensures { result ≡ covered self.now.s self.now.cursor.now x.0 y.0 }
    {
        if !self.is_in_cursor(x, y) {
            return false;
        }
        let (j, i) = (
            usize::from(y.0 - self.s.vcs.0),
            usize::from(x.0 - self.s.cx.0),
        );
        pair_at(self.cursor, j, i) != 0
    }

    // Display position p: unless it is covered, its pixel is flagged, and what the table of bright pixels has for it is answered.
    fn shown_one(&self, shades: &Shades, y: Rasters, p: usize, flags: &mut [u8; 256]) -> u32
        requires { (self.now.s.vds.0 ≤ y.0) × (y.0 < self.now.s.vde.0) × (p < self.now.s.de.0 - self.now.s.ds.0) }
        ensures { (result ≡ shown_at self.now.s self.now.video.now self.now.cursor.now shades.now.bright y.0 p) × (result ≤ 1)
            × Flagged flags.old flags.new (seen_at self.now.s self.now.video.now self.now.cursor.now y.0 p) }
    {
        let x = Pixels(self.s.ds.0 + p as u16);
        if self.is_covered(x, y) {
            return 0;
        }
        let pixel = self.pixel(x, y);
        flags[pixel] = 1;
        u32::from(shades.bright[pixel])
    }

    // Display positions from one up to another: the table's sum, and the pixels shown.
    pub fn shown_in(
        &self,
        shades: &Shades,
        y: Rasters,
        from: usize,
        to: usize,
        flags: &mut [u8; 256],
    ) -> u32
        requires { (self.now.s.vds.0 ≤ y.0) × (y.0 < self.now.s.vde.0) × (from ≤ to) × (to ≤ self.now.s.de.0 - self.now.s.ds.0) }
        ensures { (result ≡ shown_total self.now.s self.now.video.now self.now.cursor.now shades.now.bright y.0 from (to - from))
            × (result ≤ 2048)
            × Flagged flags.old flags.new (seen_from self.now.s self.now.video.now self.now.cursor.now y.0 from (to - from)) }
    {
        let mut sum = 0;
        for p in from..to {
            sum += self.shown_one(shades, y, p, flags);
        }
        sum
    }
}
