// The cells of all pixels of each byte at depths 1, 2 and 4, made once for each call.
ghost use Rattle.std.specs.Prelude.{◌≡◌, ◌*◌, ◌/◌, ◌≤◌, ◌<◌};
ghost use Rattle.buffers.specs.Painted.{painted};
ghost use Rattle.registers.specs.inner.Accepted.{Depth};
ghost use Rattle.frame.specs.inner.Ink.{bytes_ink};

// Those of all bytes, PER to a byte: of each the lowest pixel's, then those of the byte that is left without it.
fn all<const PER: usize, const D: u32>(table: &mut [u16; 2048], shades: &[u16; 16])
    requires { (0 < PER) × (PER ≤ 8) × (0 < D) × (D ≤ 4) }
    ensures { table.new ≡ painted table.old 0 (256 * PER) (bytes_ink shades.now PER D) }
{
    table[..PER].fill(shades[0]);
    for b in 1..256 {
        let rest = (b >> D) * PER;
        let mut cells = [shades[b % (1 << D)]; 8];
        for j in 1..PER {
            cells[j] = table[rest + j - 1];
        }
        // by a loop: `copy_from_slice` has the machine keep `cells` in memory, and a raster takes 4 to 11 % more instructions
        for i in 0..PER {
            table[b * PER + i] = cells[i];
        }
    }
}

// The same by depth.
pub fn bytes(table: &mut [u16; 2048], shades: &[u16; 16], depth: u8)
    requires { Depth depth × (depth ≤ 4) }
    ensures { table.new ≡ painted table.old 0 (256 * (8 / depth)) (bytes_ink shades.now (8 / depth) depth) }
{
    match depth {
        4 => all::<2, 4>(table, shades),
        2 => all::<4, 2>(table, shades),
        _ => all::<8, 1>(table, shades),
    }
}
