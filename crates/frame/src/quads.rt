// Depth 8, four cells of a word at once: each byte's cell comes from the table moved to its place in 64 bits, and they are added.
ghost use Rattle.std.specs.Prelude.{◌≡◌, ◌*◌, length};
ghost use Rattle.buffers.specs.Painted.{painted};
ghost use Rattle.frame.specs.inner.Quads.{Cells, Quads, Tables, Joined, Four};
ghost use Rattle.frame.specs.inner.Ink.{quad_cell, words_ink};

// Each byte's cell at its four places.
fn join(quads: &mut [u64; 1024], table: &[u16; 2048])
    requires { Cells table.now }
    ensures { Quads table.now quads.new }
{
    for b in 0..256 {
        let cell = u64::from(table[b]);
        quads[b] = cell;
        quads[256 + b] = cell << 16;
        quads[512 + b] = cell << 32;
        quads[768 + b] = cell << 48;
    }
}

// The table that depth 8 is painted by.
pub fn quads(quads: &mut [u64; 1024], table: &[u16; 2048], depth: u8)
    requires { depth ≡ 8 → Cells table.now }
    ensures { Tables depth table.now quads.new }
{
    if depth == 8 {
        join(quads, table);
    }
}

// The four cells of a word, the lowest byte's lowest.
fn quad(quads: &[u64; 1024], w: u32) -> u64
    requires { Joined quads.now }
    ensures { Four quads.now w result }
{
    let [a, b, c, d] = w.to_le_bytes();
    quads[usize::from(a)]
        + quads[256 + usize::from(b)]
        + quads[512 + usize::from(c)]
        + quads[768 + usize::from(d)]
}

// They are stored one after another: the machine stores all 64 bits at once.
#[tactic(auto, unfolding(crate::specs::inner::Ink::quad_cell))]
fn put_quad(out: &mut [u16], x: u64)
    requires { length out.old ≡ 4 }
    ensures { out.new ≡ painted out.old 0 4 (quad_cell x) }
{
    for (j, cell) in out.iter_mut().enumerate() {
        *cell = ((x >> (16 * j)) % 0x1_0000) as u16;
    }
}

// All words of a list, one a turn.
fn each(out: &mut [u16], quads: &[u64; 1024], video: &[u32])
    requires { (length out.old ≡ 4 * length video.now) × Joined quads.now }
    ensures { out.new ≡ painted out.old 0 (length out.old) (words_ink quads.now video.now 1) }
{
    for (q, w) in video.iter().enumerate() {
        put_quad(&mut out[4 * q..4 * q + 4], quad(quads, *w));
    }
}

// The same four a turn, which the machine does with no test between them, and then those that are left.
pub fn quad_words(out: &mut [u16], quads: &[u64; 1024], video: &[u32])
    requires { (length out.old ≡ 4 * length video.now) × Joined quads.now }
    ensures { out.new ≡ painted out.old 0 (length out.old) (words_ink quads.now video.now 1) }
{
    let turns = video.len() / 4;
    for k in 0..turns {
        each(
            &mut out[16 * k..16 * k + 16],
            quads,
            &video[4 * k..4 * k + 4],
        );
    }
    each(&mut out[16 * turns..], quads, &video[4 * turns..]);
}
