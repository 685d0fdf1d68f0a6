// A plate on standard input, its picture on standard output as a binary PPM file. All that matters is proved in `sheets` and `outputs`.
#![tactic(auto)]

use cells::judge;
use registers::record::Registers;
use standard_plate::{Failure, Room};
use std::io;

// All strips, up to the first that is empty. No frame has more than 1,024 rasters; the head comes before them.
// It stays beside the loop of `printer`, as is said there.
fn show(rt: &impl Print, g: Registers, video: &[u32], cursor: &[u32]) -> io::Result<()> {
    for k in 0..1025 {
        let mut bytes = [0; 6144];
        let n = outputs::strips::strip(g, video, cursor, k, &mut bytes);
        if n == 0 {
            break;
        }
        rt.write_all(&bytes[..n])?;
    }
    Ok(())
}

// The register words are loaded and checked, and the picture is judged, before a strip is written.
fn show_input(rt: &(impl io::Input + Print)) -> Result<(), Failure> {
    let mut room = Room::default();
    let sheet = room.sheet(rt)?;
    let mut g = Registers::new();
    g.load_and_check(sheet.registers)?;
    judge(g, sheet.video, sheet.cursor)?;
    show(rt, g, sheet.video, sheet.cursor)?;
    Ok(())
}

fn main(rt: HostRuntime) {
    if let Err(failure) = show_input(&rt) {
        failure.tell(&rt);
    }
}
