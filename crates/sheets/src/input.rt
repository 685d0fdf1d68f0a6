// A plate as it comes in on standard input, taken apart.
ghost use Rattle.std.specs.Prelude.{◌≡◌};
ghost use Rattle.refusals.specs.Refusals.{says};
ghost use Rattle.sheets.specs.Input.{take_input_told, input_leaves};

use crate::{Parts, take};
use refusals::{Refusal, refuse_if};

// The most bytes that standard input may have.
const MOST_INPUT: usize = 65_536;

// A plate taken apart, with room for the words of the longest: 15, 14.
pub fn take_input(file: &[u8], words: &mut [u32; 16384]) -> Result<Parts, Refusal>
    ensures told { says result ≡ take_input_told file.now }
    ensures left { words.new ≡ input_leaves file.now words.old }
{
    refuse_if(MOST_INPUT < file.len(), Refusal::TooLarge)?;
    take(file, words)
}
