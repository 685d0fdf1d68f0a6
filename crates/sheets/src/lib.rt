// A plate file taken apart once: all its words in memory that the caller lends, and where its four lists stand among them.
#![tactic(auto)]

pub mod input;
pub mod sheet;

ghost use Rattle.std.specs.Prelude.{◌≡◌, length};
ghost use Rattle.refusals.specs.Refusals.{says};
ghost use Rattle.plates.specs.Read.{copy_leaves};
ghost use Rattle.sheets.specs.Sheet.{take_told};

use refusals::Refusal;

// Where a plate's video, cursor and sound words start among all its words, and where they end. Its register words come first.
#[derive(Clone, Copy)]
pub struct Parts {
    pub video: usize,
    pub cursor: usize,
    pub sound: usize,
    pub end: usize,
}

// A plate's words copied out, and where its lists stand among them: 14, 13. No list is judged here.
#[tactic(auto, using(refusals::proofs::Told::handed_on, plates::proofs::Calls::copy_refused, crate::proofs::Sheets::take_then))]
pub fn take(file: &[u8], words: &mut [u32]) -> Result<Parts, Refusal>
    ensures told { says result ≡ take_told file.now (length words.old) }
    ensures left { words.new ≡ copy_leaves file.now words.old }
{
    let sections = plates::read(file)?;
    plates::copy_out(file, words)?;
    Ok(Parts {
        video: (sections.r - sections.v) as usize,
        cursor: (sections.r - sections.c) as usize,
        sound: (sections.r - sections.s) as usize,
        end: sections.r as usize,
    })
}
