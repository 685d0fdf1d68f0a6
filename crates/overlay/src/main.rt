// A plate on standard input and a camera picture, the file that the first argument names; on standard output the plate laid over it, as a
// binary PPM file. All that matters is proved in the crates below.
#![tactic(auto)]

mod camera;

use camera::{Camera, Fault, opened};
use cells::judge;
use refusals::Refusal;
use registers::record::Registers;
use registers::units::Rasters;
use sheets::sheet::Sheet;
use standard_plate::{Failure, Room};
use std::env::Env;
use std::fs::File;
use std::io;
use std::rt::Files;

// Why nothing more is shown: the plate, or standard output; the camera picture.
#[derive(Drop)]
enum Stop {
    Plate(Failure),
    Camera(Fault),
}

impl From<Failure> for Stop {
    fn from(failure: Failure) -> Stop {
        Stop::Plate(failure)
    }
}

impl From<Refusal> for Stop {
    fn from(why: Refusal) -> Stop {
        Stop::Plate(Failure::Refused(why))
    }
}

impl From<Fault> for Stop {
    fn from(fault: Fault) -> Stop {
        Stop::Camera(fault)
    }
}

impl From<io::Error> for Stop {
    fn from(error: io::Error) -> Stop {
        Stop::Plate(Failure::Output(error))
    }
}

fn show_head(rt: &impl Print, g: Registers, sheet: Sheet<'_>) -> io::Result<()> {
    let mut bytes = [0; 6144];
    let n = outputs::strips::strip(g, sheet.video, sheet.cursor, 0, &mut bytes);
    rt.write_all(&bytes[..n])
}

// Some colours as a picture has them.
fn write_colours(rt: &impl Print, colours: &[u16]) -> io::Result<()> {
    let mut bytes = [0; 6144];
    let n = pictures::guns(colours, &mut bytes);
    rt.write_all(&bytes[..n])
}

// Raster y over the camera's next.
fn show_raster(
    rt: &impl Print,
    g: Registers,
    sheet: Sheet<'_>,
    camera: Camera<'_>,
    y: u16,
) -> Result<(), Stop> {
    let mut colours = [0; 2048];
    camera.raster(&mut colours)?;
    let mut cells = [0; 2048];
    frame::raster(g, sheet.video, sheet.cursor, Rasters(y), &mut cells)?;
    let mut mixed = [0; 2048];
    mixing::mix(g, &cells, &colours, &mut mixed)?;
    write_colours(rt, &mixed[..usize::from(camera.n)])?;
    Ok(())
}

// Nothing is written before the camera picture is found right.
fn show_over(
    rt: &impl Print,
    g: Registers,
    sheet: Sheet<'_>,
    camera: Camera<'_>,
) -> Result<(), Stop> {
    show_head(rt, g, sheet)?;
    for y in 0..camera.v {
        show_raster(rt, g, sheet, camera, y)?;
    }
    Ok(())
}

// The plate is judged before the camera picture is opened.
fn show_judged(
    rt: &(impl Files<File = File> + Env + Print),
    g: Registers,
    sheet: Sheet<'_>,
) -> Result<(), Stop> {
    let s = judge(g, sheet.video, sheet.cursor)?;
    let file = opened(rt)?;
    let camera = Camera::of(&file, s.n.0, s.v.0)?;
    show_over(rt, g, sheet, camera)
}

// The register words are loaded and checked first.
fn show_input(rt: &(impl io::Input + Files<File = File> + Env + Print)) -> Result<(), Stop> {
    let mut room = Room::default();
    let sheet = room.sheet(rt)?;
    let mut g = Registers::new();
    g.load_and_check(sheet.registers)?;
    show_judged(rt, g, sheet)
}

fn main(rt: HostRuntime) {
    match show_input(&rt) {
        Ok(()) => {}
        Err(Stop::Plate(failure)) => failure.tell(&rt),
        Err(Stop::Camera(fault)) => fault.tell(&rt),
    }
}
