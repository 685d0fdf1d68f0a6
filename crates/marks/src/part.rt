// The part of a displayed raster that the cursor may cover, in whole words.
ghost use Rattle.marks.specs.inner.Shown.{CursorPart};

use crate::judged::Judged;
use registers::units::{Pixels, Rasters};
use std::ops::Range;

impl Judged<'_> {
    // The words that hold a position of the cursor's; before and behind them nothing is covered.
    pub fn cursor_part(&self, y: Rasters) -> Range<usize>
        ensures { CursorPart self.now.s y.0 result }
    {
        let s = &self.s;
        if !s.cursor | (y < s.vcs) | (s.vce <= y) {
            return 0..0;
        }
        let per = 32 / usize::from(s.depth);
        let width = s.de.width_from(s.ds).0;
        let end = Pixels(s.cx.0 + 32);
        let left = usize::from(s.cx.width_from(s.ds).0.min(width));
        let right = usize::from(end.width_from(s.ds).0.min(width));
        left / per..(right + per - 1) / per
    }
}
