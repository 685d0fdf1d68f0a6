// A plate on standard input, run as a bench would run it live: one video queue, each raster's sync, four words loaded at each ask, bytes
// read as the display takes them. What is asked for, loaded and read goes to standard output.
#![tactic(auto)]

mod bench;
mod run;
mod said;

use bench::{Bench, Row, Totals};
use cells::judge;
use queues::Queue;
use queues::syncs::video_ask;
use registers::record::Registers;
use registers::setting::Setting;
use run::run;
use said::{say_end, say_rasters};
use standard_plate::{Failure, Room};
use std::io;

// How many words a plate has at most.
const MOST_WORDS: usize = 16_384;

// How many rasters a frame has at most.
const MOST_RASTERS: usize = 1024;

// The bytes that the display takes on a raster.
fn bytes_of(s: Setting, raster: u32) -> u32 {
    if (u32::from(s.vds.0) <= raster) & (raster < u32::from(s.vde.0)) {
        u32::from(s.de.width_from(s.ds).0) * u32::from(s.depth) / 8
    } else {
        0
    }
}

// A raster's row beforehand: the words that its sync asks for, and the bytes that its display takes.
fn beforehand(g: Registers, s: Setting, raster: u32) -> Row {
    Row {
        asked: video_ask(g, raster),
        loaded: bytes_of(s, raster),
        read: 0,
    }
}

fn table(g: Registers, s: Setting) -> [Row; MOST_RASTERS] {
    let mut told = [Row::default(); MOST_RASTERS];
    for (raster, row) in (0u32..).zip(&mut told) {
        *row = beforehand(g, s, raster);
    }
    told
}

// Enough ticks: two for each raster, four for each word's bytes, one for each word loaded, filler included.
fn ticks(rasters: u16, words: usize) -> u32 {
    2 * u32::from(rasters) + 5 * words.min(MOST_WORDS) as u32 + 32
}

// The bench before its first tick.
fn idle(control: u32, rasters: u32) -> Bench {
    Bench {
        last: None,
        control,
        rasters,
        raster: 0,
        block: 0,
        left: 0,
        totals: Totals {
            asked: 0,
            words: 0,
            bytes: 0,
            own: 0,
        },
    }
}

// One frame with one video queue.
fn run_frame(rt: &impl Print, g: Registers, s: Setting, video: &[u32]) -> io::Result<()> {
    let mut told = table(g, s);
    let rasters = u32::from(s.v.0);
    let after = run(
        Queue::fresh(0),
        idle(g.control(), rasters),
        ticks(s.v.0, video.len()),
        video,
        &mut told,
    );
    say_rasters(rt, &told, rasters)?;
    say_end(rt, after.totals, video.len())
}

// The register words are loaded and checked, and the picture is judged.
fn run_input(rt: &(impl io::Input + Print)) -> Result<(), Failure> {
    let mut room = Room::default();
    let sheet = room.sheet(rt)?;
    let mut g = Registers::new();
    g.load_and_check(sheet.registers)?;
    let s = judge(g, sheet.video, sheet.cursor)?;
    run_frame(rt, g, s, sheet.video)?;
    Ok(())
}

fn main(rt: HostRuntime) {
    if let Err(failure) = run_input(&rt) {
        failure.print(&rt);
    }
}
