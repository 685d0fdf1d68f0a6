// Samples of 16 bits, as a WAV file has them.
ghost use Rattle.std.specs.Prelude.{◌≡◌, ◌*◌, ◌≤◌, length};
ghost use Rattle.std.proofs.lemmas.List.Edits.{sets};
ghost use Rattle.buffers.specs.Put.{Put, text_in};
ghost use Rattle.waves.specs.Samples.{samples_of};

// Two bytes for each value, lowest first, from the first place on.
fn put_samples(out: &mut [u8], values: &[i16])
    requires { 2 * length values.now ≤ length out.old }
    ensures { out.new ≡ sets out.old 0 (samples_of values.now) }
{
    for (k, value) in values.iter().enumerate() {
        out[2 * k..2 * k + 2].copy_from_slice(&value.to_le_bytes());
    }
}

// The bytes of some values in lent memory, and how many; none where they do not all fit.
pub fn samples(values: &[i16], out: &mut [u8]) -> usize
    ensures { Put out.old out.new 0 (text_in (length out.old) (samples_of values.now)) result }
{
    if out.len() / 2 < values.len() {
        return 0;
    }
    put_samples(out, values);
    2 * values.len()
}
