// Cells made ready, once for each call: a display cell for each logical pixel, and the cells of border and cursor.
ghost use Rattle.std.specs.Prelude.{◌≡◌, ◌^◌, ◌≤◌, length};
ghost use Rattle.buffers.specs.Painted.{painted};
ghost use Rattle.registers.specs.inner.Accepted.{Depth};
ghost use Rattle.frame.specs.inner.Bytes.{Bytes};
ghost use Rattle.frame.specs.inner.Ink.{shade, pens_of};

use crate::bytes::bytes;
use colours::apart::Apart;
use colours::{entries, shown};
use registers::record::Registers;

// The display cell of each logical pixel.
fn shades(list: &mut [u16], g: Registers, depth: u8)
    requires { (depth ≤ 8) × (2 ^ depth ≤ length list.old) }
    ensures { list.new ≡ painted list.old 0 (2 ^ depth) (shade g depth) }
{
    let palette = entries(g);
    for p in 0..1usize << depth {
        list[p] = shown(palette[p % 16], depth, p as u8).cell(5);
    }
}

// The cells of all pixels of each byte: at depth 8 a byte is a pixel.
pub fn ready(table: &mut [u16; 2048], g: Registers, depth: u8)
    requires { Depth depth }
    ensures { Bytes g depth table.new }
{
    if depth == 8 {
        shades(table, g, 8);
        return;
    }
    let mut cells = [0u16; 16];
    shades(&mut cells, g, depth);
    bytes(table, &cells, depth);
}

// The cells of the border, and of the cursor's three colours.
pub fn pens(g: Registers) -> [u16; 4]
    ensures { result ≡ pens_of g }
{
    let border = Apart::of(g.border()).cell(4);
    let one = Apart::of(g.cursor_colour(1)).cell(6);
    let two = Apart::of(g.cursor_colour(2)).cell(6);
    let three = Apart::of(g.cursor_colour(3)).cell(6);
    [border, one, two, three]
}
