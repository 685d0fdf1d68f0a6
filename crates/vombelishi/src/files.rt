// Plate files read, copied out and written.
ghost use Rattle.std.specs.Prelude.{◌≡◌, length};
ghost use Rattle.plates.specs.Read.{copy_told, copy_leaves};
ghost use Rattle.plates.specs.Write.{write_told, write_leaves};
ghost use Rattle.vombelishi.specs.Code.{answer_code, stored_by, cell_by};
ghost use Rattle.vombelishi.specs.Files.{nine_of, read_call};

use crate::code::{answered, refused};
use crate::put::store;
use plates::Sections;

#[tactic(auto, unfolding(crate::specs::Files::nine_of))]
fn numbers(p: Sections) -> [u64; 9]
    ensures { result ≡ nine_of p }
{
    [
        p.registers as u64,
        p.video as u64,
        p.cursor as u64,
        p.sound as u64,
        p.trailer as u64,
        u64::from(p.r),
        u64::from(p.v),
        u64::from(p.c),
        u64::from(p.s),
    ]
}

// The five starts in bytes and R, V, C, S; 14, then 13 for `places`.
#[tactic(auto, unfolding(crate::specs::Files::read_call))]
pub fn vom_read(file: &[u8], places: &mut [u64]) -> u64
    ensures { (result ≡ answer_code (read_call file.now (length places.old)))
        × (places.new ≡ stored_by (read_call file.now (length places.old)) places.old) }
{
    match plates::read(file) {
        Err(why) => refused(why),
        Ok(p) => answered(store(places, &numbers(p))),
    }
}

// Copies every word that stands before the trailer; 14, then 13.
pub fn vom_copy(file: &[u8], words: &mut [u32]) -> u64
    ensures { (result ≡ answer_code (copy_told file.now (length words.old)))
        × (words.new ≡ copy_leaves file.now words.old) }
{
    answered(plates::copy_out(file, words))
}

// A plate of four lists, and its length in bytes; 15, then 13 for `out`.
pub fn vom_write(
    registers: &[u32],
    video: &[u32],
    cursor: &[u32],
    sound: &[u32],
    out: &mut [u8],
    size: &mut u64,
) -> u64
    ensures { (result ≡ answer_code (write_told registers.now video.now cursor.now sound.now (length out.old)))
        × (out.new
        ≡ write_leaves registers.now video.now cursor.now sound.now out.old)
        × (size.new
        ≡ cell_by (write_told registers.now video.now cursor.now sound.now (length out.old))
        size.old) }
{
    match plates::write(registers, video, cursor, sound, out) {
        Err(why) => refused(why),
        Ok(n) => {
            *size = n as u64;
            0
        }
    }
}
