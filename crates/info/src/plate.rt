// A plate taken apart, judged and described.
use crate::summary::print_setting;
use crate::terms::Count;
use crate::verdicts::Verdict;
use crate::words::print_words;
use refusals::Refusal;
use registers::record::Registers;
use sheets::sheet::Sheet;
use std::io;

// The threshold of the mark count.
const THRESHOLD: u8 = 128;

fn print_verdict(
    rt: &impl Print,
    judged: &str,
    answer: Result<(), Refusal>,
    words: &[u32],
) -> io::Result<()> {
    let verdict = Verdict {
        judged,
        answer,
        words,
    };
    println!(rt; "{verdict}")
}

// The register words loaded and checked: the setting and the mark count, as far as the picture has them, and its verdict.
fn print_picture(rt: &impl Print, sheet: Sheet<'_>) -> io::Result<()> {
    let mut g = Registers::new();
    let counted = match g.load_and_check(sheet.registers) {
        Ok(s) => {
            print_setting(rt, &g, s, sheet)?;
            marks::marks(g, sheet.video, sheet.cursor, THRESHOLD)
        }
        Err(why) => Err(why),
    };
    if let Ok(count) = counted {
        println!(rt; "marks: {count} at threshold {THRESHOLD}")?;
    }
    print_verdict(rt, "picture", counted.map(|_| ()), sheet.registers)
}

fn print_sound(rt: &impl Print, sheet: Sheet<'_>) -> io::Result<()> {
    let mut g = Registers::new();
    let answer = g.load_and_check_sound(sheet.registers);
    print_verdict(rt, "sound", answer, sheet.registers)
}

// A plate file: its length, how many words each section has, and what is in them.
fn print_sheet(rt: &impl Print, bytes: usize, sheet: Sheet<'_>) -> io::Result<()> {
    let bytes = Count(bytes, "byte");
    let registers = Count(sheet.registers.len(), "register word");
    let video = Count(sheet.video.len(), "video word");
    let cursor = Count(sheet.cursor.len(), "cursor word");
    let sound = Count(sheet.sound.len(), "sound word");
    println!(rt; "{bytes}: {registers}, {video}, {cursor}, {sound}")?;
    print_words(rt, sheet.registers)?;
    print_picture(rt, sheet)?;
    print_sound(rt, sheet)
}

// A file that is not taken apart: too long, or no plate.
fn print_not_taken(rt: &impl Print, bytes: usize, why: Refusal) -> io::Result<()> {
    match why {
        Refusal::TooLarge => println!(rt; "over 65,536 bytes: too long")?,
        _ => println!(rt; "{}: no plate file", Count(bytes, "byte"))?,
    }
    print_verdict(rt, "picture", Err(why), &[])?;
    print_verdict(rt, "sound", Err(why), &[])
}

// What is in a plate.
pub fn print_plate(rt: &impl Print, plate: &[u8]) -> io::Result<()> {
    let mut words = [0u32; 16384];
    match Sheet::of_input(plate, &mut words) {
        Err(why) => print_not_taken(rt, plate.len(), why),
        Ok(sheet) => print_sheet(rt, plate.len(), sheet),
    }
}
