// A plate on standard input, as most programs take it: room for it, its lists, and what ends a program before its end.
#![tactic(auto)]

ghost use Rattle.std.specs.Prelude.{ℕ, List, IfOk};
ghost use Rattle.sheets.specs.Lists.{Lists};

use refusals::Refusal;
use sheets::sheet::Sheet;
use standard_input::Broken;
use std::io;

// The most bytes that a plate may have.
pub const LONGEST: usize = 65_536;

// Room for a plate's bytes and its words. There is one byte more than is taken: a longer plate is refused for its length alone.
#[derive(Drop)]
pub struct Room {
    plate: [u8; LONGEST + 1],
    words: [u32; LONGEST / 4],
}

impl Default for Room {
    fn default() -> Room {
        Room {
            plate: [0; LONGEST + 1],
            words: [0; LONGEST / 4],
        }
    }
}

impl Room {
    // The plate on standard input, taken apart: the lists are those of some file.
    pub fn sheet(&mut self, rt: &impl io::Input) -> Result<Sheet<'_>, Failure>
        ensures { IfOk result (λ sheet. (file : List ℕ) × Lists file sheet) }
    {
        let count = standard_input::read(rt, &mut self.plate)?;
        let sheet = Sheet::of_input(&self.plate[..count], &mut self.words)?;
        Ok(sheet)
    }
}

// Why a program ends before its end: standard input can't be read, the plate is refused, or standard output can't be written.
#[derive(Drop)]
pub enum Failure {
    Input(io::Error),
    Refused(Refusal),
    Output(io::Error),
}

impl From<Broken> for Failure {
    fn from(broken: Broken) -> Failure {
        Failure::Input(broken.error)
    }
}

impl From<Refusal> for Failure {
    fn from(why: Refusal) -> Failure {
        Failure::Refused(why)
    }
}

impl From<io::Error> for Failure {
    fn from(error: io::Error) -> Failure {
        Failure::Output(error)
    }
}

// The one line that says why a plate is refused.
fn line(why: Refusal, text: &mut [u8; 64]) -> &[u8] {
    let n = outputs::text::refused(why, text);
    &text[..n]
}

impl Failure {
    // One line on standard error: what failed, or why the plate is refused.
    pub fn tell(self, rt: &impl Eprint) {
        match self {
            Failure::Input(error) => standard_error::fail(rt, "standard input", error),
            Failure::Output(error) => standard_error::fail(rt, "standard output", error),
            Failure::Refused(why) => standard_error::say(rt, line(why, &mut [0; 64])),
        }
    }

    // The same, but why a plate is refused goes to standard output.
    pub fn print(self, rt: &(impl Print + Eprint)) {
        match self {
            Failure::Refused(why) => {
                if let Err(error) = rt.write_all(line(why, &mut [0; 64])) {
                    Failure::Output(error).tell(rt);
                }
            }
            failed => failed.tell(rt),
        }
    }
}
