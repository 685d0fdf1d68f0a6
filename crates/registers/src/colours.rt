// What the palettes hold, as the picture reads it: 13 bits each, a colour and its supremacy, which `colours` tells apart.
ghost use Rattle.std.specs.Prelude.{◌≡◌};
ghost use Rattle.registers.specs.Colours.{palette_of, border_of, cursor_of};

use crate::record::Registers;

impl Registers {
    // Video palette entry `entry` modulo 16.
    pub fn palette(self, entry: u8) -> u16
        ensures { result ≡ palette_of self entry }
    {
        let slot = usize::from(entry % 16);
        (self.values[slot] % 0x2000) as u16
    }

    pub fn border(self) -> u16
        ensures { result ≡ border_of self }
    {
        (self.values[Self::BORDER / 4] % 0x2000) as u16
    }

    // Cursor palette entry 1, 2 or 3: of a pair, modulo 4.
    pub fn cursor_colour(self, pair: u8) -> u16
        ensures { result ≡ cursor_of self pair }
    {
        let slot = Self::BORDER / 4 + usize::from(pair % 4);
        (self.values[slot] % 0x2000) as u16
    }
}
