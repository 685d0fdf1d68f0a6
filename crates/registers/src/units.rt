// The data sheet's three counts, kept apart: pixel pairs, pixel positions and rasters.
ghost use Rattle.std.specs.Prelude.{◌≡◌, ◌-◌};
ghost use Rattle.registers.specs.Units.{pixels_of, rasters_of};

// A horizontal register's value: ten bits that count pairs of pixels.
#[derive(Clone, Copy, PartialEq, Eq)]
pub struct Pairs(pub u16);

// A pixel position in a raster, or a width in pixels.
#[derive(Clone, Copy, PartialEq, Eq, PartialOrd, Ord)]
pub struct Pixels(pub u16);

// A raster's number in a frame, or a count of rasters.
#[derive(Clone, Copy, PartialEq, Eq, PartialOrd, Ord)]
pub struct Rasters(pub u16);

impl Pairs {
    // The position that the value stands for: twice its ten bits, and the offset of its register.
    pub fn pixels(self, offset: u8) -> Pixels
        ensures { result ≡ pixels_of self.0 offset }
    {
        Pixels(2 * (self.0 % 1024) + u16::from(offset))
    }
}

impl Pixels {
    // The pixels from a start up to this position, none where the start lies beyond it.
    pub fn width_from(self, start: Pixels) -> Pixels
        ensures { result.0 ≡ self.0 - start.0 }
    {
        Pixels(self.0.saturating_sub(start.0))
    }
}

impl Rasters {
    // The rasters from a start up to this one, none where the start lies beyond it.
    pub fn height_from(self, start: Rasters) -> Rasters
        ensures { result.0 ≡ self.0 - start.0 }
    {
        Rasters(self.0.saturating_sub(start.0))
    }

    // The count that a vertical register's value stands for: one more than its ten bits.
    pub fn of_value(value: u16) -> Rasters
        ensures { result ≡ rasters_of value }
    {
        Rasters(value % 1024 + 1)
    }
}
