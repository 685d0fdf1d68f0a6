// What is said of the entries: a line for each displayed raster, and a last line with the sum of their marks.
use registers::setting::Setting;
use standard_plate::Failure;
use std::io;

// The last line. Where it can't be written that is told twice, of its number and of its end.
fn say_total(rt: &(impl Print + Eprint), total: u32) -> Result<(), Failure> {
    if let Err(error) = print!(rt; "total {total}") {
        Failure::Output(error).tell(rt);
    }
    rt.write_all(b"\n")?;
    Ok(())
}

// A raster's line, each number written by itself: where output stops in its middle, all that fits is there.
fn say_entry(rt: &impl Print, raster: usize, entry: [u16; 3]) -> io::Result<()> {
    let [count, least, greatest] = entry;
    print!(rt; "raster {raster}")?;
    print!(rt; " marks {count}")?;
    print!(rt; " least {least}")?;
    print!(rt; " greatest {greatest}")?;
    rt.write_all(b"\n")
}

pub fn say_entries(
    rt: &(impl Print + Eprint),
    s: Setting,
    numbers: &[u16; 3072],
) -> Result<(), Failure> {
    let (entries, _) = numbers.as_chunks::<3>();
    let rasters = usize::from(s.vde.height_from(s.vds).0).min(entries.len());
    let mut total = 0;
    for (r, entry) in entries[..rasters].iter().enumerate() {
        say_entry(rt, usize::from(s.vds.0) + r, *entry)?;
        total += u32::from(entry[0]);
    }
    say_total(rt, total)
}
