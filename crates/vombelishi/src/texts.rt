// The printer's text of a plate file, whole.
ghost use Rattle.std.specs.Prelude.{◌≡◌, length, MatchResult};
ghost use Rattle.buffers.specs.Put.{Put, text_in};
ghost use Rattle.refusals.specs.Refusals.{why_of};
ghost use Rattle.outputs.specs.Text.{refused_line, picture_text, text_of};
ghost use Rattle.vombelishi.specs.Code.{answer_code, cell_by};
ghost use Rattle.vombelishi.specs.Texts.{text_call, text_leaves};

use crate::code::refused;
use refusals::Refusal;
use registers::record::Registers;
use sheets::sheet::Sheet;

// A plate's lists, and the record that its register words leave.
fn taken<'a>(file: &[u8], words: &'a mut [u32; 16384]) -> Result<(Registers, Sheet<'a>), Refusal>
    ensures { MatchResult result
        (λ p. picture_text p.0 p.1.video.now p.1.cursor.now ≡ text_of file.now)
        (λ why. refused_line (why_of why) ≡ text_of file.now) }
{
    let sheet = Sheet::of_input(file, words)?;
    let mut g = Registers::new();
    g.load_and_check(sheet.registers)?;
    Ok((g, sheet))
}

// The text, refused or not, and its length; no bytes where it does not fit. The plate is taken apart once, and its register words are loaded
// and checked once.
fn put_text(file: &[u8], out: &mut [u8]) -> usize
    ensures { Put out.old out.new 0 (text_in (length out.old) (text_of file.now)) result }
{
    let mut words = [0u32; 16384];
    match taken(file, &mut words) {
        Err(why) => outputs::text::refused(why, out),
        Ok((g, sheet)) => outputs::whole::text(g, sheet.video, sheet.cursor, out),
    }
}

// The text of a plate file, refused or not, and its length; 13 for `text`. A text has at least a byte.
pub fn vom_text(file: &[u8], text: &mut [u8], size: &mut u64) -> u64
    ensures { (result ≡ answer_code (text_call file.now (length text.old)))
        × (text.new ≡ text_leaves file.now text.old)
        × (size.new ≡ cell_by (text_call file.now (length text.old)) size.old) }
{
    let n = put_text(file, text);
    if n == 0 {
        return refused(Refusal::Short);
    }
    *size = n as u64;
    0
}
