// A plate on standard input; on standard output of each displayed raster its marks and its least and greatest grey, and at last all marks. The
// threshold is the first argument, 128 where there is none.
#![tactic(auto)]

mod said;
mod threshold;

use marks::summaries::summaries;
use registers::record::Registers;
use said::say_entries;
use standard_plate::{Failure, Room};
use std::io;
use threshold::asked;

// The register words are loaded and checked first. No frame has more than 1,024 rasters.
fn tally(rt: &(impl io::Input + Print + Eprint), threshold: u8) -> Result<(), Failure> {
    let mut room = Room::default();
    let sheet = room.sheet(rt)?;
    let mut g = Registers::new();
    let s = g.load_and_check(sheet.registers)?;
    let mut numbers = [0; 3072];
    summaries(g, sheet.video, sheet.cursor, threshold, &mut numbers)?;
    say_entries(rt, s, &numbers)
}

fn main(rt: HostRuntime) {
    let Some(threshold) = asked(&rt) else {
        standard_error::say(&rt, b"the threshold is a number from 0 to 255\n");
        return;
    };
    if let Err(failure) = tally(&rt, threshold) {
        failure.print(&rt);
    }
}
