// A raster's line of runs in lent memory.
ghost use Rattle.std.specs.Prelude.{◌≡◌, ◌+◌, ◌*◌, ◌/◌, ◌<◌, ◌≤◌, EachIndex, IsTrue, length, slice_index};
ghost use Rattle.std.proofs.lemmas.List.Edits.{sets};
ghost use Rattle.buffers.specs.Pick.{pick};
ghost use Rattle.outputs.specs.Runs.{run, line_of};
ghost use Rattle.outputs.specs.inner.Room.{Same};
ghost use Rattle.buffers.specs.Put.{Put};

use crate::number::put_number;

// Whether eight cells have a code: tests side by side, which the compiler makes one of.
fn all_have(eight: &[u16; 8], code: u16) -> bool
    ensures { IsTrue result → EachIndex eight.now (λ k. slice_index eight.now k / 8192 ≡ code) }
{
    let mut same = true;
    for cell in eight {
        same &= *cell / 8192 == code;
    }
    same
}

// How many cells from the first one on have a code.
fn count_same(cells: &[u16], code: u16) -> usize
    ensures { Same cells.now code result }
{
    let other = cells.iter().position(|cell| *cell / 8192 != code);
    other.unwrap_or(cells.len())
}

// How many have the first one's: by eights as far as they go, and then one by one.
fn run_length(cells: &[u16]) -> usize
    requires { 1 ≤ length cells.now }
    ensures { Same cells.now (slice_index cells.now 0 / 8192) result }
{
    let code = cells[0] / 8192;
    let mut same = 0;
    while let Some(eight) = cells[same..].first_chunk::<8>() {
        if !all_have(eight, code) {
            break;
        }
        same += 8;
    }
    same + count_same(&cells[same..], code)
}

// One run stored from a place on; the place after it. Four bytes a cell are room for it and what follows it.
fn put_run(out: &mut [u8], at: usize, code: u32, n: u32) -> usize
    requires { (code < 8) × (1 ≤ n) × (at + 4 * n ≤ length out.old) }
    ensures { (result ≡ at + length (run code n)) × (result < at + 4 * n) × (out.new ≡ sets out.old at (run code n)) }
{
    let x = put_number(out, at, code);
    out[x] = b'x';
    put_number(out, x + 1, n)
}

// What follows a run: a space where another comes, else the newline.
fn mark(more: bool) -> u8
    ensures { result ≡ pick more 32 10 }
{
    if more { b' ' } else { b'\n' }
}

// The line of some cells, stored from a place on; the place after it.
pub fn put_line(out: &mut [u8], at: usize, cells: &[u16]) -> usize
    requires { (1 ≤ length cells.now) × (length cells.now ≤ 2048) × (at + 4 * length cells.now ≤ length out.old) }
    ensures { Put out.old out.new at (line_of cells.now) result }
{
    let mut to = at;
    let mut rest = cells;
    while !rest.is_empty() {
        let n = run_length(rest);
        let x = put_run(out, to, u32::from(rest[0] / 8192), n as u32);
        rest = &rest[n..];
        out[x] = mark(!rest.is_empty());
        to = x + 1;
    }
    to
}
