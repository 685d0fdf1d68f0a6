// The marks of a judged picture: its bright pixels, without those that the cursor covers.
ghost use Rattle.std.specs.Prelude.{◌≡◌};
ghost use Rattle.marks.specs.Marks.{marks_of};

use crate::judged::Judged;
use crate::tables::{Shades, bright_bytes};
use crate::walk::in_words;
use registers::record::Registers;

impl Judged<'_> {
    pub fn count(&self, g: Registers, threshold: u8) -> u32
        ensures { result ≡ marks_of g self.now.s self.now.video.now self.now.cursor.now threshold }
    {
        let shades = Shades::of(g, self.s.depth, threshold);
        let sums = bright_bytes(&shades.bright, self.s.depth);
        in_words(&sums, self.video) - self.covered(&shades.bright)
    }
}
