// Geometry: the record's registers read as positions and counts, with their units.
ghost use Rattle.std.specs.Prelude.{◌≡◌, ◌/◌, ◌^◌, ◌<◌};
ghost use Rattle.registers.specs.Geometry.{pixels_at, rasters_at, cursor_start, sub_position, cursor_on};
ghost use Rattle.registers.specs.Record.{value_at};

use crate::record::Registers;
use crate::units::{Pairs, Pixels, Rasters};

impl Registers {
    // A register's data, modulo 2^24. The public constants are plain numbers: a type for addresses would be put around each of them at each call.
    pub(crate) fn value(self, address: usize) -> u32
        requires { address < 256 }
        ensures { result ≡ value_at self address }
    {
        self.values[address / 4] % 0x100_0000
    }

    // A horizontal register's value: bits 23 to 14 of its data, the highest.
    fn pairs(self, address: usize) -> Pairs
        requires { address < 256 }
        ensures { result.0 ≡ value_at self address / 2 ^ 14 }
    {
        Pairs((self.value(address) / 0x4000) as u16)
    }

    pub(crate) fn pixels(self, address: usize, offset: u8) -> Pixels
        requires { address < 256 }
        ensures { result ≡ pixels_at self address offset }
    {
        self.pairs(address).pixels(offset)
    }

    pub(crate) fn rasters(self, address: usize) -> Rasters
        requires { address < 256 }
        ensures { result ≡ rasters_at self address }
    {
        Rasters::of_value((self.value(address) / 0x4000) as u16)
    }

    pub(crate) fn cursor_start(self) -> Pixels
        ensures { result ≡ cursor_start self }
    {
        Pixels((self.value(Self::HCSR) / 0x2000 % 0x800 + 6) as u16)
    }

    pub fn sub_position(self) -> u32
        ensures { result ≡ sub_position self }
    {
        self.value(Self::HCSR) / 0x800 % 4
    }

    pub fn cursor_on(self) -> bool
        ensures { result ≡ cursor_on self }
    {
        let start = self.rasters(Self::VCSR);
        let end = self.rasters(Self::VCER);
        self.written[Self::VCSR / 4] & self.written[Self::VCER / 4] & (start < end)
    }
}
