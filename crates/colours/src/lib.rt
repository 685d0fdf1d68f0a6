// The colour of a logical pixel, its grey, and the level of the sync pin.
#![tactic(auto)]

pub mod apart;

ghost use Rattle.std.specs.Prelude.{◌≡◌};
ghost use Rattle.colours.specs.Apart.{apart_of};
ghost use Rattle.colours.specs.Colour.{mixed, shown_of, colour_of, entries_of};
ghost use Rattle.colours.specs.Grey.{grey_of};
ghost use Rattle.colours.specs.Pin.{pin_of};

use apart::Apart;
use registers::record::Registers;

// Depth 8: bits of the palette entry, and the pixel's four high bits between them.
fn mix(entry: u16, pixel: u8) -> u16
    ensures { result ≡ mixed entry pixel }
{
    let p = u16::from(pixel);
    entry / 4096 % 2 * 4096
        + p / 128 % 2 * 2048
        + entry / 256 % 8 * 256
        + p / 64 % 2 * 128
        + p / 32 % 2 * 64
        + entry / 16 % 4 * 16
        + p / 16 % 2 * 8
        + entry % 8
}

// The colour that a palette entry, 13 bits of what is given, shows for a logical pixel.
pub fn shown(entry: u16, depth: u8, pixel: u8) -> Apart
    ensures { result ≡ apart_of (shown_of entry depth pixel) }
{
    if depth == 8 {
        return Apart::of(mix(entry, pixel));
    }
    Apart::of(entry)
}

// The colour that a logical pixel shows.
pub fn colour(g: Registers, depth: u8, pixel: u8) -> Apart
    ensures { result ≡ apart_of (colour_of g depth pixel) }
{
    shown(g.palette(pixel), depth, pixel)
}

// The video palette, for callers that show many pixels: a record that is handed on for each would be copied each time.
pub fn entries(g: Registers) -> [u16; 16]
    ensures { result ≡ entries_of g }
{
    let mut list = [0u16; 16];
    for k in 0..16 {
        list[usize::from(k)] = g.palette(k);
    }
    list
}

// The grey of a colour, 0 to 255: its guns by the weights the eye has, in 256ths.
pub fn grey(colour: u16) -> u8
    ensures { result ≡ grey_of colour }
{
    let weighed = 77 * (colour % 16) + 150 * (colour / 16 % 16) + 29 * (colour / 256 % 16);
    (17 * weighed / 256) as u8
}

// The sync pin's level for a code and the control data: 0 low, 1 high.
pub fn pin(code: u8, control: u32) -> u8
    ensures { result ≡ pin_of code control }
{
    let low = if control / 0x80 % 2 == 1 {
        (code == 1) | (code == 2)
    } else {
        (code == 2) | (code == 3)
    };
    u8::from(!low)
}
