// A byte's amplitude, its sign, and its value in sixths.
ghost use Rattle.std.specs.Prelude.{◌≡◌, ◌≤◌};
ghost use Rattle.sound.specs.Amplitude.{amplitude_of, signed_of, value_of};

// 2^c·(p+16)-16 for chord c and point p: the power is a shift.
fn amplitude(byte: u8) -> u16
    ensures { result ≡ amplitude_of byte }
{
    let point = u16::from(byte / 2 % 16);
    let chord = byte / 32;
    ((point + 16) << chord) - 16
}

// The amplitude, negated by the sign bit.
fn signed(byte: u8) -> i16
    ensures { result ≡ signed_of byte }
{
    let a = amplitude(byte) as i16;
    if byte % 2 == 1 {
        return -a;
    }
    a
}

// Times sixths.
pub fn value(byte: u8, sixths: u8) -> i16
    requires { sixths ≤ 7 }
    ensures { result ≡ value_of byte sixths }
{
    signed(byte) * i16::from(sixths)
}
