// The camera picture: a file whose head and rasters are read one after the other, and found right or not.
ghost use Rattle.std.specs.Prelude.{◌≤◌};

use pictures::head::Head;
use std::env::{Env, FillError};
use std::fs::File;
use std::io::{Read, Seek, SeekFrom};
use std::rt::Files;
use std::{fs, io};

// The system's numbers for no argument, for a name that is too long, and for one that is no text.
const NO_NAME: i32 = 22;

const LONG_NAME: i32 = 36;

const NO_TEXT: i32 = 84;

// What is wrong with a camera picture.
#[derive(Drop)]
pub enum Fault {
    // It can't be read; it can't be read a second time.
    Unread(io::Error),
    NotTwice(io::Error),
    // It is none of the width and height that are asked for.
    Wrong(u16, u16),
}

impl Fault {
    // One line on standard error.
    pub fn tell(self, rt: &impl Eprint) {
        match self {
            Fault::Unread(error) => standard_error::fail(rt, "the camera picture", error),
            Fault::NotTwice(error) => {
                standard_error::fail(rt, "the camera picture, which is read twice", error);
            }
            Fault::Wrong(n, v) => {
                let asked = "with a greatest value of 255, each byte 17 times a 4-bit gun";
                let _ = eprintln!(rt;
                    "the camera picture must be a binary PPM file of {n} x {v} {asked}"
                );
            }
        }
    }
}

// The file that the first argument names, open.
fn named(rt: &(impl Files<File = File> + Env)) -> io::Result<File> {
    let mut name = [0; 4096];
    match rt.arg(1, &mut name) {
        Ok(length) => match str::from_utf8(&name[..length]) {
            Ok(path) => fs::open(rt, path),
            Err(_) => Err(io::Error::from_raw_os_error(NO_TEXT)),
        },
        Err(FillError::NotPresent) => Err(io::Error::from_raw_os_error(NO_NAME)),
        Err(FillError::TooLong) => Err(io::Error::from_raw_os_error(LONG_NAME)),
    }
}

// The same, or what is wrong with it.
pub fn opened(rt: &(impl Files<File = File> + Env)) -> Result<File, Fault> {
    named(rt).map_err(Fault::Unread)
}

// An open file, and the width and height that its picture must have.
#[derive(Clone, Copy)]
pub struct Camera<'a> {
    pub file: &'a File,
    pub n: u16,
    pub v: u16,
    ghost fits: { n ≤ 2048 },
}

impl<'a> Camera<'a> {
    // The camera picture for a frame of a size, found right from end to end; the first raster is read next.
    pub fn of(file: &'a File, n: u16, v: u16) -> Result<Camera<'a>, Fault>
        requires { n ≤ 2048 }
    {
        let camera = Camera { file, n, v };
        camera.check()?;
        Ok(camera)
    }

    // The next bytes, and how many there are.
    fn read_some(self, bytes: &mut [u8]) -> io::Result<usize> {
        let mut file = self.file;
        file.read(bytes)
    }

    // Why it is not right: a failure, which a read shows again, or what is in it.
    fn fault(self) -> Fault {
        let mut probe = [0; 1];
        match self.read_some(&mut probe) {
            Ok(_) => Fault::Wrong(self.n, self.v),
            Err(error) => Fault::Unread(error),
        }
    }

    // A head with the file's next byte; where there is none it is wrong.
    fn head_after(self, head: Head) -> Head {
        let mut byte = [0; 1];
        match self.read_some(&mut byte) {
            Ok(1) => head.next(byte[0], self.n, self.v),
            _ => Head::Wrong,
        }
    }

    // Reads a right head, byte by byte, so that the first raster comes next. Nothing says that a file ends: there are more turns than any
    // run uses up.
    fn read_head(self) -> Result<(), Fault> {
        let mut head = Head::Empty;
        for _ in 0..u64::MAX {
            if !head.is_open() {
                break;
            }
            head = self.head_after(head);
        }
        if head.is_whole() {
            Ok(())
        } else {
            Err(self.fault())
        }
    }

    // The next raster's colours, in the first places.
    pub fn raster(self, colours: &mut [u16]) -> Result<(), Fault> {
        let mut file = self.file;
        let mut bytes = [0; 6144];
        let raster = &mut bytes[..3 * usize::from(self.n)];
        if file.read_exact(raster).is_ok() && pictures::read::colours(raster, colours) {
            return Ok(());
        }
        Err(self.fault())
    }

    // Reads all rasters; nothing is behind them.
    fn read_rasters(self) -> Result<(), Fault> {
        let mut colours = [0; 2048];
        for _ in 0..self.v {
            self.raster(&mut colours)?;
        }
        let mut probe = [0; 1];
        match self.read_some(&mut probe) {
            Ok(0) => Ok(()),
            _ => Err(self.fault()),
        }
    }

    // Goes back to a place, where it is known.
    fn go_back(self, place: io::Result<u64>) -> io::Result<u64> {
        let mut file = self.file;
        file.seek(SeekFrom::Start(place?))
    }

    // Reads it from end to end, and goes back to the first raster.
    fn check(self) -> Result<(), Fault> {
        self.read_head()?;
        let mut file = self.file;
        let first = file.stream_position();
        self.read_rasters()?;
        self.go_back(first).map_err(Fault::NotTwice)?;
        Ok(())
    }
}
