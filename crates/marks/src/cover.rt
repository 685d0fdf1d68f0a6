// Bright pixels that the cursor covers: at most 32 positions of each of its rasters.
ghost use Rattle.std.specs.Prelude.{◌≡◌, ◌+◌, ◌*◌, ◌/◌, ◌%◌, ◌^◌, ◌<◌, ◌≤◌, length, get_or};
ghost use Rattle.marks.specs.inner.Bright.{OnCursor, cursor_bright, cursor_raster, covered_all};

use crate::judged::Judged;
use registers::units::{Pixels, Rasters};

// Bit pair i of cursor raster j.
pub fn pair_at(cursor: &[u32], j: usize, i: usize) -> u32
    requires { (2 * j + 1 < length cursor.now) × (i < 32) }
    ensures { result ≡ get_or cursor.now (2 * j + i / 16) 0 / 2 ^ (2 * (i % 16)) % 4 }
{
    (cursor[2 * j + i / 16] >> (2 * (i % 16))) % 4
}

impl Judged<'_> {
    // Position i of cursor raster j, which is displayed: what the table has for the pixel there, if the cursor covers it.
    fn covered_at(&self, bright: &[u8; 256], j: usize, i: usize) -> u32
        requires { OnCursor self.now.s self.now.cursor.now j × (i < 32) }
        ensures { (result ≡ cursor_bright self.now.s self.now.video.now self.now.cursor.now bright.now (self.now.s.vcs.0 + j) i)
            × (result ≤ 255) }
    {
        let x = Pixels(self.s.cx.0 + i as u16);
        if x < self.s.ds || self.s.de <= x || pair_at(self.cursor, j, i) == 0 {
            return 0;
        }
        u32::from(bright[self.pixel(x, Rasters(self.s.vcs.0 + j as u16))])
    }

    // Cursor raster j: the sum over its 32 positions.
    #[tactic(auto, using(crate::proofs::Totals::sum_more, crate::proofs::Covering::raster_small), unfolding(crate::specs::Count::total))]
    fn covered_in(&self, bright: &[u8; 256], j: usize) -> u32
        requires { j < length self.now.cursor.now / 2 }
        ensures { (result ≡ cursor_raster self.now.s self.now.video.now self.now.cursor.now bright.now j) × (result ≤ 8160) }
    {
        let y = Rasters(self.s.vcs.0 + j as u16);
        if y < self.s.vds || self.s.vde <= y {
            return 0;
        }
        let mut sum = 0;
        for i in 0..32 {
            sum += self.covered_at(bright, j, i);
        }
        sum
    }

    // All that the cursor covers: two words a raster, and none where it is off.
    #[tactic(auto, using(crate::proofs::Totals::sum_more, registers::proofs::Words::cursor_most), unfolding(crate::specs::Count::total))]
    pub fn covered(&self, bright: &[u8; 256]) -> u32
        ensures { result ≡ covered_all self.now.s self.now.video.now self.now.cursor.now bright.now }
    {
        let mut sum = 0;
        for j in 0..self.cursor.len() / 2 {
            sum += self.covered_in(bright, j);
        }
        sum
    }
}
