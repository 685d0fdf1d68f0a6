// Colour and supremacy apart: what every colour lookup answers, and the cell that the two make with a code.
ghost use Rattle.std.specs.Prelude.{◌≡◌, ◌%◌};
ghost use Rattle.colours.specs.Apart.{apart_of, both_of};
ghost use Rattle.colours.specs.Cells.{cell_with};

// A colour of 12 bits, and whether it has supremacy.
#[derive(Clone, Copy)]
pub struct Apart {
    pub colour: u16,
    pub supremacy: bool,
}

impl Apart {
    // Of the 13 bits that a palette entry and a cell hold lowest; what is above them plays no part, so that it is no `From`.
    pub fn of(held: u16) -> Apart
        ensures { result ≡ apart_of held }
    {
        Apart {
            colour: held % 4096,
            supremacy: held / 4096 % 2 == 1,
        }
    }

    // The 13 bits.
    fn both(self) -> u16
        ensures { result ≡ both_of self }
    {
        u16::from(self.supremacy) * 4096 + self.colour % 4096
    }

    // The cell of a code, which has three bits.
    pub fn cell(self, code: u16) -> u16
        ensures { result ≡ cell_with (code % 8) (both_of self) }
    {
        code % 8 * 8192 + self.both()
    }
}
