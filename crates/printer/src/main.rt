// The run printer: a plate on standard input, its text on standard output. All that matters is proved in `sheets` and `outputs`.
#![tactic(auto)]

use registers::record::Registers;
use standard_plate::{Failure, Room};
use std::io;

// The lines of the picture's text, up to the first that is empty. No frame has more than 1,024 rasters; the head comes before them.
// `picture` and `wave` have such a loop too: one function for all would have a `requires` on its closure, and no public call has one.
fn print(rt: &impl Print, g: Registers, video: &[u32], cursor: &[u32]) -> io::Result<()> {
    for k in 0..1025 {
        let mut text = [0; 8256];
        let n = outputs::text::line(g, video, cursor, k, &mut text);
        if n == 0 {
            break;
        }
        rt.write_all(&text[..n])?;
    }
    Ok(())
}

// The register words are loaded and checked before a line is written.
fn print_input(rt: &(impl io::Input + Print)) -> Result<(), Failure> {
    let mut room = Room::default();
    let sheet = room.sheet(rt)?;
    let mut g = Registers::new();
    g.load_and_check(sheet.registers)?;
    print(rt, g, sheet.video, sheet.cursor)?;
    Ok(())
}

fn main(rt: HostRuntime) {
    if let Err(failure) = print_input(&rt) {
        failure.print(&rt);
    }
}
