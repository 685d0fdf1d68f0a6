// A picture's bytes read back into colours: the inverse of `guns`.
ghost use Rattle.std.specs.Prelude.{◌≡◌, ◌/◌, ◌≤◌, ◌&&◌, true, fold, length};
ghost use Rattle.buffers.specs.Painted.{painted};
ghost use Rattle.pictures.specs.Read.{is_gun, colour_read, colour_read_at, read_right, read_leaves};

// Whether each byte is 17 times a gun: nothing ends this early, so that the machine takes many at once.
fn all_guns(bytes: &[u8]) -> bool
    ensures { result ≡ fold (λ all byte. all && is_gun byte) true bytes.now }
{
    bytes.iter().fold(true, |all, byte| all & (*byte % 17 == 0))
}

fn colour_read(r: u8, g: u8, b: u8) -> u16
    ensures { result ≡ colour_read r g b }
{
    u16::from(r / 17) + 16 * u16::from(g / 17) + 256 * u16::from(b / 17)
}

// The colours of all whole threes, from the first place on.
fn put_colours(out: &mut [u16], bytes: &[u8])
    requires { length bytes.now / 3 ≤ length out.old }
    ensures { out.new ≡ painted out.old 0 (length bytes.now / 3) (colour_read_at bytes.now) }
{
    for k in 0..bytes.len() / 3 {
        out[k] = colour_read(bytes[3 * k], bytes[3 * k + 1], bytes[3 * k + 2]);
    }
}

// Whether the bytes are right; then their colours, red in the lowest 4 bits, are in the first places, and else nothing is changed.
pub fn colours(bytes: &[u8], out: &mut [u16]) -> bool
    ensures { (result ≡ read_right bytes.now (length out.old))
        × (out.new ≡ read_leaves bytes.now out.old) }
{
    if all_guns(bytes) & (bytes.len() % 3 == 0) & (bytes.len() / 3 <= out.len()) {
        put_colours(out, bytes);
        return true;
    }
    false
}
