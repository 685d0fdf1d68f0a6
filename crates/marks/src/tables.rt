// Tables of 256: what each pixel shows, how many of each byte's pixels are bright, and which pixels it holds.
ghost use Rattle.std.specs.Prelude.{◌≡◌, ◌<◌, ℕ, length, get_or};
ghost use Rattle.registers.specs.inner.Accepted.{Depth};
ghost use Rattle.marks.specs.inner.Bright.{Tabled, AtMost, bright, byte_bright};
ghost use Rattle.marks.specs.inner.Shown.{grey_at, lit_by, RasterTables};
ghost use Rattle.marks.specs.inner.Known.{known};

use crate::holds::masks_of;
use crate::pixels::low_bits;
use colours::{entries, grey, shown};
use registers::record::Registers;

// By pixel: 1 where its grey is at or above the threshold, else 0; and the grey.
#[derive(Drop)]
pub struct Shades {
    pub bright: [u8; 256],
    pub greys: [u8; 256],
    ghost few: { AtMost bright 1 },
}

// And by byte: how many of its pixels are bright, and at depths up to 4 a bit for each pixel that it holds. The sums are as wide as the
// sums over them: they are added straight from memory.
#[derive(Drop)]
pub struct Tables {
    pub depth: u8,
    pub shades: Shades,
    pub sums: [u32; 256],
    pub masks: [u32; 256],
    ghost known: { RasterTables shades.bright sums masks depth } by { Prim.hlevel known },
}

// A table by a rule: entry k is what the rule answers for k.
pub fn table_of<T: Copy, F: Fn(u8) -> T>(none: T, rule: F) -> [T; 256]
    requires { F.IsAlwaysCallable rule }
    ensures len { length result ≡ 256 }
    ensures each { (k : ℕ) → k < 256 → F.post rule k (get_or result k none) }
{
    let mut table = [none; 256];
    for (k, entry) in table.iter_mut().enumerate() {
        *entry = rule(k as u8);
    }
    table
}

// The grey that each pixel shows.
fn greys_of(g: Registers, depth: u8) -> [u8; 256]
    ensures { Tabled result 256 (grey_at g depth) }
{
    let palette = entries(g);
    table_of(
        0,
        |pixel| grey(shown(palette[usize::from(pixel % 16)], depth, pixel).colour),
    )
}

// The bright pixels, by their greys: 1 where a grey is at or above the threshold, else 0.
fn lit_pixels(greys: &[u8; 256], threshold: u8) -> [u8; 256]
    ensures { Tabled result 256 (lit_by greys.now threshold) }
{
    table_of(0, |pixel| u8::from(threshold <= greys[usize::from(pixel)]))
}

// How many of a byte's pixels are bright.
#[tactic(auto, using(crate::proofs::Masks::byte_most), unfolding(crate::specs::Count::total))]
fn in_byte(pixels: &[u8; 256], depth: u32, byte: u8) -> u32
    requires { Depth depth × AtMost pixels.now 1 }
    ensures { result ≡ byte_bright pixels.now depth byte }
{
    let bits = u32::from(byte);
    let mut sum = 0;
    for j in 0..8 / depth {
        sum += u32::from(pixels[low_bits(bits >> (j * depth), depth)]);
    }
    sum
}

// How many of each byte's pixels are bright.
pub fn bright_bytes(pixels: &[u8; 256], depth: u8) -> [u32; 256]
    requires { Depth depth × AtMost pixels.now 1 }
    ensures { Tabled result 256 (byte_bright pixels.now depth) }
{
    table_of(0, |byte| in_byte(pixels, u32::from(depth), byte))
}

impl Shades {
    pub fn of(g: Registers, depth: u8, threshold: u8) -> Shades
        ensures greys { Tabled result.greys 256 (grey_at g depth) }
        ensures bright { Tabled result.bright 256 (bright g depth threshold) }
    {
        let greys = greys_of(g, depth);
        Shades {
            bright: lit_pixels(&greys, threshold),
            greys,
        }
    }
}

impl Tables {
    pub fn of(shades: Shades, depth: u8) -> Tables
        requires { Depth depth }
        ensures depth { result.depth ≡ depth }
        ensures shades { result.shades ≡ shades }
    {
        let sums = bright_bytes(&shades.bright, depth);
        Tables {
            depth,
            shades,
            sums,
            masks: masks_of(depth),
        }
    }
}
