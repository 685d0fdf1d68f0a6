// The entry of one displayed raster: pixel by pixel, or by whole words but where the cursor may cover.
ghost use Rattle.std.specs.Prelude.{◌≡◌, ◌+◌, ◌-◌, ◌<◌};
ghost use Rattle.marks.specs.inner.Shown.{entry_by};

use crate::entry::Entry;
use crate::extremes::entry_of;
use crate::judged::Judged;
use crate::tables::{Shades, Tables};
use registers::units::Rasters;

impl Judged<'_> {
    // Displayed raster r, pixel by pixel.
    pub fn by_pixels(&self, shades: &Shades, r: usize) -> Entry
        requires { r < self.now.s.vde.0 - self.now.s.vds.0 }
        ensures { result
            ≡ entry_by shades.now.greys shades.now.bright self.now.s self.now.video.now self.now.cursor.now (self.now.s.vds.0 + r) }
    {
        let y = Rasters(self.s.vds.0 + r as u16);
        let width = usize::from(self.s.de.width_from(self.s.ds).0);
        let mut flags = [0u8; 256];
        let count = self.shown_in(shades, y, 0, width, &mut flags);
        entry_of(&shades.greys, &flags, self.s.depth, count)
    }

    // By whole words but where the cursor may cover.
    #[tactic(auto, using(crate::proofs::Spread::raster_inside))]
    pub fn by_words(&self, tables: &Tables, r: usize) -> Entry
        requires { (r < self.now.s.vde.0 - self.now.s.vds.0) × (tables.now.depth ≡ self.now.s.depth) }
        ensures { result
            ≡ entry_by tables.now.shades.greys tables.now.shades.bright self.now.s self.now.video.now self.now.cursor.now
            (self.now.s.vds.0 + r) }
    {
        let y = Rasters(self.s.vds.0 + r as u16);
        let words = self.raster_words();
        let first = r * words;
        let row = &self.video[first..first + words];
        let part = self.cursor_part(y);
        let per = 32 / usize::from(self.s.depth);
        let (from, to) = (part.start * per, part.end * per);
        let mut flags = [0u8; 256];
        let left = tables.span(&row[..part.start], &mut flags);
        let middle = self.shown_in(&tables.shades, y, from, to, &mut flags);
        let right = tables.span(&row[part.end..], &mut flags);
        entry_of(
            &tables.shades.greys,
            &flags,
            self.s.depth,
            left + middle + right,
        )
    }
}
