// A picture's bytes: red, green and blue of each cell, each 4-bit gun times 17; such bytes read back, and the head before them.
#![tactic(auto)]

pub mod head;
pub mod read;

ghost use Rattle.std.specs.Prelude.{◌≡◌, [], ◌∷◌, ◌*◌, ◌≤◌, length};
ghost use Rattle.std.proofs.lemmas.List.Edits.{sets};
ghost use Rattle.buffers.specs.Put.{Put, text_in};
ghost use Rattle.pictures.specs.Colours.{red, green, blue, guns_of};

use colours::apart::Apart;

// A colour's three bytes.
fn three_of(colour: u16) -> [u8; 3]
    ensures { result ≡ red colour ∷ green colour ∷ blue colour ∷ [] }
{
    [
        (17 * (colour % 16)) as u8,
        (17 * (colour / 16 % 16)) as u8,
        (17 * (colour / 256 % 16)) as u8,
    ]
}

// Three bytes for each cell, from the first place on.
fn put_cells(out: &mut [u8], cells: &[u16])
    requires { 3 * length cells.now ≤ length out.old }
    ensures { out.new ≡ sets out.old 0 (guns_of cells.now) }
{
    for (k, cell) in cells.iter().enumerate() {
        let colour = Apart::of(*cell).colour;
        out[3 * k..3 * k + 3].copy_from_slice(&three_of(colour));
    }
}

// The bytes of some cells in lent memory, and how many; none where they do not all fit.
pub fn guns(cells: &[u16], out: &mut [u8]) -> usize
    ensures { Put out.old out.new 0 (text_in (length out.old) (guns_of cells.now)) result }
{
    if out.len() / 3 < cells.len() {
        return 0;
    }
    put_cells(out, cells);
    3 * cells.len()
}
