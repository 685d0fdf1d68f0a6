// Decimal numbers in lent memory.
ghost use Rattle.std.specs.Prelude.{◌≡◌, ◌+◌, ◌≤◌, length};
ghost use Rattle.std.proofs.lemmas.List.Edits.{sets};
ghost use Rattle.outputs.specs.Decimal.{places, decimal};

// How many digits a number has.
fn count_places(n: u32) -> usize
    ensures { result ≡ places n }
{
    n.max(1).ilog10() as usize + 1
}

// A number's digits stored from a place on, the last one first; the place after them.
pub fn put_number(out: &mut [u8], at: usize, n: u32) -> usize
    requires { at + places n ≤ length out.old }
    ensures { (result ≡ at + places n) × (out.new ≡ sets out.old at (decimal n)) }
{
    let count = count_places(n);
    let mut left = n;
    for k in (0..count).rev() {
        out[at + k] = b'0' + (left % 10) as u8;
        left /= 10;
    }
    at + count
}
