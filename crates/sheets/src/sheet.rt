// A plate that came in on standard input as its four lists, each a part of the words that the caller lends.
ghost use Rattle.std.specs.Prelude.{ℕ, List, ◌≡◌, ◌≤◌, length, IfOk, MatchResult};
ghost use Rattle.std.specs.Borrow.{MutBor, sem};
ghost use Rattle.refusals.specs.Refusals.{says, refusal};
ghost use Rattle.sheets.specs.Input.{input_told, take_input_told, input_leaves};
ghost use Rattle.sheets.specs.inner.Part.{IsPart};
ghost use Rattle.sheets.specs.Lists.{Lists, Places, Leaves};

use crate::Parts;
use crate::input::take_input;
use refusals::Refusal;

#[derive(Clone, Copy)]
pub struct Sheet<'a> {
    pub registers: &'a [u32],
    pub video: &'a [u32],
    pub cursor: &'a [u32],
    pub sound: &'a [u32],
}

impl<'a> Sheet<'a> {
    // The lists that stand one after another among some words.
    fn cut(words: &'a [u32], parts: Parts) -> Sheet<'a>
        requires { (parts.video ≤ parts.cursor) × (parts.cursor ≤ parts.sound) × (parts.sound ≤ parts.end) × (parts.end ≤ length words.now) }
        ensures registers { IsPart words.entry result.registers 0 parts.video }
        ensures video { IsPart words.entry result.video parts.video parts.cursor }
        ensures cursor { IsPart words.entry result.cursor parts.cursor parts.sound }
        ensures sound { IsPart words.entry result.sound parts.sound parts.end }
    {
        Sheet {
            registers: &words[..parts.video],
            video: &words[parts.video..parts.cursor],
            cursor: &words[parts.cursor..parts.sound],
            sound: &words[parts.sound..parts.end],
        }
    }

    // The lists of a plate that was taken apart into some words, or why it was not. Nobody writes these words any more.
    #[tactic(auto, using(crate::proofs::Sheets::input_refused))]
    fn of_taken(
        taken: Result<Parts, Refusal>,
        words: &'a [u32; 16384],
    ) -> Result<Sheet<'a>, Refusal>
        ghost from: { List ℕ × MutBor (List ℕ) }
        requires told { says taken ≡ take_input_told from.0 }
        requires left { words.now ≡ input_leaves from.0 from.1.now }
        requires place { words.ref_ptr ≡ from.1.ref_ptr }
        ensures lists { MatchResult result (Lists from.0) (λ why. input_told from.0 ≡ refusal why) }
        ensures places { IfOk result (Places from.0 from.1) }
    {
        let parts = taken?;
        Ok(Sheet::cut(words, parts))
    }

    // The lists of a plate, in lent words that have room for those of the longest: 15, 14.
    pub fn of_input(file: &[u8], words: &'a mut [u32; 16384]) -> Result<Sheet<'a>, Refusal>
        ensures lists { MatchResult result (Lists file.now) (λ why. input_told file.now ≡ refusal why) }
        ensures places { IfOk result (Places file.now words.entry) }
        ensures* left { sem 𝓛 (Leaves words.entry (input_leaves file.now words.old)) }
    {
        let taken = take_input(file, words);
        Sheet::of_taken(taken, words)
    }
}
