// Plate files: read, copied out, written. The contents of the sections are not judged here.
#![tactic(auto)]

mod words;

ghost use Rattle.std.specs.Prelude.{◌≡◌, ◌≤◌, length};
ghost use Rattle.std.proofs.lemmas.List.Edits.{sets};
ghost use Rattle.refusals.specs.Refusals.{says};
ghost use Rattle.plates.specs.Plate.{most_bytes, plate_of, plate_length, sections_by};
ghost use Rattle.plates.specs.Read.{read_told, copy_told, copy_leaves};
ghost use Rattle.plates.specs.inner.Trailer.{trailer_told};
ghost use Rattle.plates.specs.Write.{write_told, write_leaves};

use buffers::{copy_words, put_words};
use refusals::{Refusal, refuse_if};
use words::word_at;

// The most bytes that a plate may have.
pub const MOST_BYTES: usize = 4_194_304;

// The most words before its trailer.
const MOST_WORDS: usize = 1_048_572;

// Where the sections of a plate lie.
#[derive(Clone, Copy)]
pub struct Sections {
    // where each section starts and where the trailer does, in bytes
    pub registers: usize,
    pub video: usize,
    pub cursor: usize,
    pub sound: usize,
    pub trailer: usize,
    // the trailer: distances in words from its start back to the start of each section
    pub r: u32,
    pub v: u32,
    pub c: u32,
    pub s: u32,
}

// The starts that a trailer gives.
fn starts(r: u32, v: u32, c: u32, s: u32) -> Sections
    requires { (v ≤ r) × (c ≤ r) × (s ≤ r) }
    ensures { result ≡ sections_by r v c s }
{
    Sections {
        registers: 0,
        video: 4 * (r - v) as usize,
        cursor: 4 * (r - c) as usize,
        sound: 4 * (r - s) as usize,
        trailer: 4 * r as usize,
        r,
        v,
        c,
        s,
    }
}

// The sections of a file that is long enough for a trailer.
fn read_trailer(file: &[u8]) -> Result<Sections, Refusal>
    requires { 16 ≤ length file.now }
    ensures { says result ≡ trailer_told file.now }
{
    let n = file.len();
    let r = word_at(file, n - 16);
    let v = word_at(file, n - 12);
    let c = word_at(file, n - 8);
    let s = word_at(file, n - 4);
    if (v <= r) & (c <= v) & (s <= c) & (4 * u64::from(r) + 16 == n as u64) {
        return Ok(starts(r, v, c, s));
    }
    Err(Refusal::PlateFile)
}

// A file judged: where its sections and its trailer start, or 14.
#[tactic(auto, unfolding(crate::specs::Read::read_told))]
pub fn read(file: &[u8]) -> Result<Sections, Refusal>
    ensures { says result ≡ read_told file.now }
{
    let n = file.len();
    if (16 <= n) & (n <= MOST_BYTES) {
        return read_trailer(file);
    }
    Err(Refusal::PlateFile)
}

// All words before the trailer, in order, copied into lent memory; or 14, then 13.
#[tactic(auto, using(refusals::proofs::Told::handed_on, crate::proofs::Calls::copy_rows, crate::proofs::Calls::given_r))]
pub fn copy_out(file: &[u8], out: &mut [u32]) -> Result<(), Refusal>
    ensures told { says result ≡ copy_told file.now (length out.old) }
    ensures left { out.new ≡ copy_leaves file.now out.old }
{
    let count = read(file)?.r as usize;
    refuse_if(out.len() < count, Refusal::Short)?;
    copy_words(file, count, out);
    Ok(())
}

// The plate of four lists, stored from the first byte on.
fn put_plate(registers: &[u32], video: &[u32], cursor: &[u32], sound: &[u32], out: &mut [u8])
    requires { (plate_length registers.now video.now cursor.now sound.now ≤ most_bytes)
        × (plate_length registers.now video.now cursor.now sound.now ≤ length out.old) }
    ensures { out.new ≡ sets out.old 0
        (plate_of registers.now video.now cursor.now sound.now) }
{
    let s = sound.len();
    let c = cursor.len() + s;
    let v = video.len() + c;
    let r = registers.len() + v;
    let trailer = [r as u32, v as u32, c as u32, s as u32];
    put_words(out, 0, registers);
    put_words(out, 4 * (r - v), video);
    put_words(out, 4 * (r - c), cursor);
    put_words(out, 4 * (r - s), sound);
    put_words(out, 4 * r, &trailer);
}

// A plate written from its four lists: its length in bytes; or 15, then 13.
#[tactic(auto, using(refusals::proofs::Told::handed_on), unfolding(crate::specs::Write::write_told))]
pub fn write(
    registers: &[u32],
    video: &[u32],
    cursor: &[u32],
    sound: &[u32],
    out: &mut [u8],
) -> Result<usize, Refusal>
    ensures told { says result
        ≡ write_told registers.now video.now cursor.now sound.now (length out.old) }
    ensures left { out.new
        ≡ write_leaves registers.now video.now cursor.now sound.now out.old }
{
    let words = registers.len() + video.len() + cursor.len() + sound.len();
    refuse_if(MOST_WORDS < words, Refusal::TooLarge)?;
    let size = 4 * words + 16;
    refuse_if(out.len() < size, Refusal::Short)?;
    put_plate(registers, video, cursor, sound, out);
    Ok(size)
}
