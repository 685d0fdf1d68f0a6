// Plate files read, copied out and written.
ghost use Rattle.std.specs.Prelude.{◌≡◌, length};
ghost use Rattle.plates.specs.Read.{copy_told, copy_leaves};
ghost use Rattle.plates.specs.Write.{write_told, write_leaves};
ghost use Rattle.vombelishi.specs.Code.{answer_code, stored_by, cell_by};
ghost use Rattle.vombelishi.specs.Files.{read_call};

// The five starts in bytes and R, V, C, S; 14, then 13 for `places`.
#[unsafe(no_mangle)]
pub extern "C" fn vom_read(file: &[u8], places: &mut [u64]) -> u64
    ensures { (result ≡ answer_code (read_call file.now (length places.old)))
        × (places.new ≡ stored_by (read_call file.now (length places.old)) places.old) }
{
    vombelishi::files::vom_read(file, places)
}

// Copies every word that stands before the trailer; 14, then 13.
#[unsafe(no_mangle)]
pub extern "C" fn vom_copy(file: &[u8], words: &mut [u32]) -> u64
    ensures { (result ≡ answer_code (copy_told file.now (length words.old)))
        × (words.new ≡ copy_leaves file.now words.old) }
{
    vombelishi::files::vom_copy(file, words)
}

// A plate of four lists, and its length in bytes; 15, then 13 for `out`.
#[unsafe(no_mangle)]
pub extern "C" fn vom_write(
    registers: &[u32],
    video: &[u32],
    cursor: &[u32],
    sound: &[u32],
    out: &mut [u8],
    size: &mut u64,
) -> u64
    ensures { (result ≡ answer_code (write_told registers.now video.now cursor.now sound.now (length out.old)))
        × (out.new
        ≡ write_leaves registers.now video.now cursor.now sound.now out.old)
        × (size.new
        ≡ cell_by (write_told registers.now video.now cursor.now sound.now (length out.old))
        size.old) }
{
    vombelishi::files::vom_write(registers, video, cursor, sound, out, size)
}
