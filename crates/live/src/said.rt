// What the bench says: a line for each raster on which words were asked for or loaded, and a last line for the frame.
use crate::bench::{Row, Totals};
use std::io;

// A raster's line, each number written by itself: where output stops in its middle, all that fits is there.
fn say_raster(rt: &impl Print, raster: u32, row: Row) -> io::Result<()> {
    let Row {
        asked,
        loaded,
        read,
    } = row;
    print!(rt; "raster {raster}")?;
    print!(rt; " asked {asked}")?;
    print!(rt; " loaded {loaded}")?;
    print!(rt; " read {read}")?;
    rt.write_all(b"\n")
}

// Behind the table's end no raster has a line.
pub fn say_rasters(rt: &impl Print, told: &[Row], rasters: u32) -> io::Result<()> {
    let mut before = Row::default();
    for (raster, after) in (0..rasters).zip(told) {
        let row = after.since(before);
        if row.asked != 0 || row.loaded != 0 {
            say_raster(rt, raster, row)?;
        }
        before = *after;
    }
    Ok(())
}

pub fn say_end(rt: &impl Print, t: Totals, words: usize) -> io::Result<()> {
    let own = u32::try_from(words).unwrap_or(u32::MAX);
    let filler = t.words.saturating_sub(own);
    print!(rt; "loaded {}", t.words)?;
    print!(rt; " read {}", t.bytes)?;
    print!(rt; " filler {filler}")?;
    if t.own == t.bytes {
        return rt.write_all(b" the frame's own bytes\n");
    }
    print!(rt; " differs at {}", t.own)?;
    rt.write_all(b"\n")
}
