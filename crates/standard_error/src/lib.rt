// Standard error: some letters, and a line for what failed. A write to it that fails itself is told nowhere.
#![tactic(auto)]

use arrayvec::ArrayString;
use std::fmt::Write;
use std::{fmt, io};

// Letters as they are written, each of them one byte.
#[derive(Drop)]
struct Letters<'a>(&'a [u8]);

impl fmt::Display for Letters<'_> {
    fn fmt<W: fmt::Write>(&self, f: &mut fmt::Formatter<W>) -> fmt::Result {
        for letter in self.0 {
            f.write_char(char::from(*letter))?;
        }
        Ok(())
    }
}

// Some letters.
pub fn say(rt: &impl Eprint, text: &[u8]) {
    let _ = rt.eprint(Letters(text));
}

// The system's words, without the number that the library puts behind them.
fn words(text: &str) -> &str {
    match text.rsplit_once(" (os error ") {
        Some((words, _)) => words,
        None => text,
    }
}

// What failed, as the caller names it, a colon and the system's words.
pub fn fail(rt: &impl Eprint, what: &str, error: io::Error) {
    let mut text = ArrayString::<256>::new();
    let _ = write!(text, "{error}");
    let words = words(text.as_str());
    let _ = eprintln!(rt; "{what}: {words}");
}
