// Values in words: counts, colours, the depth, sixths, the sound's rate, the control bits.
use colours::apart::Apart;
use registers::record::Registers;
use std::fmt;

// A sound byte of amplitude 1: its two values are the sixths themselves.
const LEAST_SOUND: u8 = 2;

// How many there are of a thing, which takes an s where they are not one.
#[derive(Clone, Copy)]
pub struct Count<'a>(pub usize, pub &'a str);

impl fmt::Display for Count<'_> {
    fn fmt<W: fmt::Write>(&self, f: &mut fmt::Formatter<W>) -> fmt::Result {
        let Count(n, thing) = *self;
        let ending = if n == 1 { "" } else { "s" };
        write!(f, "{n} {thing}{ending}")
    }
}

// A colour of 12 bits by its guns, and its supremacy.
#[derive(Clone, Copy)]
pub struct Colour(pub Apart);

impl fmt::Display for Colour {
    fn fmt<W: fmt::Write>(&self, f: &mut fmt::Formatter<W>) -> fmt::Result {
        let colour = self.0.colour;
        let red = colour % 16;
        let green = colour / 16 % 16;
        let blue = colour / 256 % 16;
        write!(f, "red {red}, green {green}, blue {blue}")?;
        if self.0.supremacy {
            f.write_str(", supremacy")?;
        }
        Ok(())
    }
}

// What a stereo value gives of amplitude 1 to each side.
#[derive(Clone, Copy)]
pub struct Stereo(pub u8);

impl fmt::Display for Stereo {
    fn fmt<W: fmt::Write>(&self, f: &mut fmt::Formatter<W>) -> fmt::Result {
        match sound::pair(LEAST_SOUND, self.0) {
            Err(_) => f.write_str("0, which sound refuses"),
            Ok(sides) => write!(f, "left {}/6, right {}/6", sides.left, sides.right),
        }
    }
}

// A sound frequency of n: a period of n + 1 microseconds, and its rate to the nearest hertz.
#[derive(Clone, Copy)]
pub struct Rate(pub u8);

impl fmt::Display for Rate {
    fn fmt<W: fmt::Write>(&self, f: &mut fmt::Formatter<W>) -> fmt::Result {
        let period = usize::from(self.0) + 1;
        let hertz = (1_000_000 + period / 2) / period;
        write!(f, "period {}, {hertz} hertz", Count(period, "microsecond"))
    }
}

// The test modes, none in most plates: 0 to 2 by bits 15 and 14, 3 by bit 8.
#[derive(Clone, Copy)]
struct TestModes(u32);

impl fmt::Display for TestModes {
    fn fmt<W: fmt::Write>(&self, f: &mut fmt::Formatter<W>) -> fmt::Result {
        let bits = self.0 / 0x4000 % 4;
        if 0 < bits {
            write!(f, ", test mode {}", bits - 1)?;
        }
        if self.0 / 0x100 % 2 == 1 {
            f.write_str(", test mode 3")?;
        }
        Ok(())
    }
}

// What control sets.
#[derive(Clone, Copy)]
pub struct Control<'a>(pub &'a Registers);

impl fmt::Display for Control<'_> {
    fn fmt<W: fmt::Write>(&self, f: &mut fmt::Formatter<W>) -> fmt::Result {
        let rate = self.0.pixel_rate();
        let depth = self.0.setting().depth;
        let control = self.0.control();
        let point = control / 0x10 % 4;
        // in both syncs the pin is high exactly where it carries their composite
        let syncs = if colours::pin(3, control) == 1 {
            "composite sync"
        } else {
            "separate syncs"
        };
        let interlace = if control / 0x40 % 2 == 1 {
            ", interlace"
        } else {
            ""
        };
        let modes = TestModes(control);
        write!(
            f,
            "{rate} MHz, depth {depth}, request point {point}, {syncs}{interlace}{modes}"
        )
    }
}
