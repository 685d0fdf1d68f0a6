// For each byte the pixels that it holds, a bit for each: at depths 1, 2 and 4 there are at most sixteen.
ghost use Rattle.std.specs.Prelude.{◌≤◌};
ghost use Rattle.registers.specs.inner.Accepted.{Depth};
ghost use Rattle.marks.specs.inner.Bright.{byte_bright};
ghost use Rattle.marks.specs.inner.Seen.{only, Masked, Masks};

use crate::pixels::low_bits;
use crate::tables::table_of;

// The pixels of a byte.
fn byte_mask(depth: u32, byte: u8) -> u32
    requires { Depth depth × (depth ≤ 4) }
    ensures { Masked result (λ q. byte_bright (only q) depth byte) }
{
    let bits = u32::from(byte);
    let mut mask = 0;
    for j in 0..8 / depth {
        mask |= 1u32 << low_bits(bits >> (j * depth), depth);
    }
    mask
}

// At depth 8 no mask is wanted.
pub fn masks_of(depth: u8) -> [u32; 256]
    requires { Depth depth }
    ensures { depth ≤ 4 → Masks result depth }
{
    if depth == 8 {
        return [0; 256];
    }
    table_of(0, |byte| byte_mask(u32::from(depth), byte))
}
