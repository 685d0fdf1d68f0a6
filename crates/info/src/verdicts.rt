// The verdicts: accepted, or the refusal's number, its detail and its rule.
use crate::names::{Address, Named};
use crate::words::{address_of, stored};
use refusals::Refusal;
use registers::record::Registers;
use std::fmt;

// What is judged, and how; `words` are the register words.
#[derive(Clone, Copy)]
pub struct Verdict<'a> {
    pub judged: &'a str,
    pub answer: Result<(), Refusal>,
    pub words: &'a [u32],
}

impl fmt::Display for Verdict<'_> {
    fn fmt<W: fmt::Write>(&self, f: &mut fmt::Formatter<W>) -> fmt::Result {
        let judged = self.judged;
        match self.answer {
            Ok(()) => write!(f, "{judged}: accepted"),
            Err(why) => {
                let rule = Rule {
                    why,
                    words: self.words,
                };
                write!(
                    f,
                    "{judged}: refused {} {}: {rule}",
                    why.number(),
                    why.detail()
                )
            }
        }
    }
}

// The rule that a refusal stands for, with what broke it in the registers as the words leave them.
#[derive(Clone, Copy)]
struct Rule<'a> {
    why: Refusal,
    words: &'a [u32],
}

impl Rule<'_> {
    // A rule on places of the frame, with each of them.
    fn of_places<W: fmt::Write>(&self, f: &mut fmt::Formatter<W>) -> fmt::Result {
        let g = stored(self.words);
        let s = g.setting();
        match self.why {
            Refusal::Horizontal => write!(
                f,
                "not HS <= BS <= DS < DE <= BE <= N: {}, {}, {}, {}, {}, {}",
                s.hs.0, s.bs.0, s.ds.0, s.de.0, s.be.0, s.n.0
            ),
            Refusal::Vertical => write!(
                f,
                "vertical rule broken; VS, VBS, VDS, VDE, VBE, V: {}, {}, {}, {}, {}, {}",
                s.vs.0, s.vbs.0, s.vds.0, s.vde.0, s.vbe.0, s.v.0
            ),
            Refusal::Width => write!(
                f,
                "(DE-DS) x depth not a multiple of 32: DE {}, DS {}, depth {}",
                s.de.0, s.ds.0, s.depth
            ),
            _ => write!(
                f,
                "cursor on, and 6 x HS below 5 x the pixel rate: HS {}, {} MHz",
                s.hs.0,
                g.pixel_rate()
            ),
        }
    }

    // A word with a reserved address. The index is that of a word, so that there is always an address.
    fn reserved<W: fmt::Write>(&self, f: &mut fmt::Formatter<W>, index: u32) -> fmt::Result {
        write!(f, "word {index} has a reserved address")?;
        match self.words.get(index as usize) {
            Some(word) => write!(f, " ({})", Address(address_of(*word))),
            None => Ok(()),
        }
    }
}

fn wrong_sound<W: fmt::Write>(f: &mut fmt::Formatter<W>, address: u32) -> fmt::Result {
    if address as usize == Registers::SOUND_FREQUENCY {
        return write!(f, "{} is below 3", Named(address));
    }
    write!(f, "{} is 0", Named(address))
}

impl fmt::Display for Rule<'_> {
    fn fmt<W: fmt::Write>(&self, f: &mut fmt::Formatter<W>) -> fmt::Result {
        match self.why {
            Refusal::TooManyWords => f.write_str("over 1,024 register words"),
            Refusal::Reserved(index) => self.reserved(f, index),
            Refusal::Unwritten(address) => write!(f, "{} was never written", Named(address)),
            Refusal::TestMode => f.write_str("control bit 14 or 15 set"),
            Refusal::Interlace => f.write_str("interlace set"),
            Refusal::Horizontal | Refusal::Vertical | Refusal::Width | Refusal::SyncWidth =>
                self.of_places(f),
            Refusal::Cursor => f.write_str("cursor on, and sub-position not 0 or VCE > V"),
            Refusal::Sound(address) => wrong_sound(f, address),
            Refusal::WordCount => f.write_str("video or cursor word count wrong"),
            Refusal::PlateFile => f.write_str("file length or trailer wrong"),
            Refusal::TooLarge => f.write_str("over 65,536 bytes"),
            // of calls that are not made here
            Refusal::Raster
            | Refusal::Short
            | Refusal::Full
            | Refusal::Empty
            | Refusal::WordIndex
            | Refusal::Camera(_) => Ok(()),
        }
    }
}
