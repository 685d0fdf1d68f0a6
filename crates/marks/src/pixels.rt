// Logical pixels, read from words.
ghost use Rattle.std.specs.Prelude.{◌≡◌, ◌%◌, ◌^◌, ◌*◌, ◌<◌, length};
ghost use Rattle.registers.specs.inner.Accepted.{Depth};
ghost use Rattle.cells.specs.Pixel.{pixel};

// The low d bits of x.
pub fn low_bits(x: u32, d: u32) -> usize
    requires { Depth d }
    ensures { result ≡ x % 2 ^ d }
{
    (x & ((1u32 << d) - 1)) as usize
}

// Logical pixel i of the words at depth d.
pub fn pixel_at(words: &[u32], d: usize, i: usize) -> usize
    requires { Depth d × (i * d < length words.now * 32) × (i < 2 ^ 32) }
    ensures { result ≡ pixel words.now d i }
{
    let bit = i * d;
    low_bits(words[bit / 32] >> (bit % 32), d as u32)
}
