// The sixths of each side, by stereo value and by channel; and a byte's value on each.
ghost use Rattle.std.specs.Prelude.{◌≡◌, ◌≤◌};
ghost use Rattle.sound.specs.Amplitude.{value_of};
ghost use Rattle.sound.specs.inner.Tables.{sixths_of, sixths_at};

use crate::Sides;
use crate::amplitude::value;
use registers::record::Registers;

// How a byte is shared between the sides.
#[derive(Clone, Copy)]
pub struct Sixths {
    pub left: u8,
    pub right: u8,
}

impl Sixths {
    // By a stereo value; the rest goes right, none for a stereo value 0.
    pub fn of(stereo: u8) -> Sixths
        requires { stereo ≤ 7 }
        ensures { result ≡ sixths_of stereo }
    {
        Sixths {
            left: 7 - stereo,
            right: stereo.saturating_sub(1),
        }
    }

    // By a channel: its register's stereo value says them.
    pub fn at(registers: Registers, channel: u8) -> Sixths
        ensures { result ≡ sixths_at registers channel }
    {
        Sixths::of(registers.stereo(channel))
    }

    // A byte's two values.
    pub fn sides(self, byte: u8) -> Sides
        requires { (self.left ≤ 7) × (self.right ≤ 7) }
        ensures { result ≡ record { left = value_of byte self.left; right = value_of byte self.right } }
    {
        Sides {
            left: value(byte, self.left),
            right: value(byte, self.right),
        }
    }
}
