// The register words, a line each, in the order written.
use crate::meaning::Meaning;
use crate::names::{Address, Name};
use arrayvec::ArrayString;
use registers::record::Registers;
use std::fmt::Write;
use std::{fmt, io};

pub fn address_of(word: u32) -> usize {
    (word / 0x400_0000 * 4) as usize
}

// What all words leave in the registers, with the reserved ones passed over.
pub fn stored(words: &[u32]) -> Registers {
    words
        .iter()
        .fold(Registers::new(), |g, word| g.store(*word))
}

// The line of word k; `later` are the words behind it, and `after` is what all of them leave.
#[derive(Clone, Copy)]
struct Row<'a> {
    k: usize,
    word: u32,
    later: &'a [u32],
    after: &'a Registers,
}

impl fmt::Display for Row<'_> {
    fn fmt<W: fmt::Write>(&self, f: &mut fmt::Formatter<W>) -> fmt::Result {
        let k = self.k;
        let address = address_of(self.word);
        let mut name = ArrayString::<16>::new();
        write!(name, "{}", Name(address))?;
        let data = self.word % 0x100_0000;
        let registers = self.after.store(self.word);
        let meaning = Meaning {
            registers: &registers,
            address,
        };
        write!(
            f,
            "{k:<6}{}  {name:<17}{data:06X}H  {meaning}",
            Address(address)
        )?;
        if self.later.iter().any(|word| address_of(*word) == address) {
            f.write_str(" (written again below)")?;
        }
        Ok(())
    }
}

// All lines.
pub fn print_words(rt: &impl Print, words: &[u32]) -> io::Result<()> {
    let after = stored(words);
    for (k, word) in words.iter().enumerate() {
        let row = Row {
            k,
            word: *word,
            later: &words[k + 1..],
            after: &after,
        };
        println!(rt; "{row}")?;
    }
    Ok(())
}
