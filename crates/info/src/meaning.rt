// What a register's data means. The record holds it, and the depth in force.
use crate::terms::{Colour, Control, Count, Rate, Stereo};
use colours::apart::Apart;
use registers::record::Registers;
use registers::units::{Pixels, Rasters};
use std::fmt;

// A place in the frame by its name in the paper, in pixels or in rasters.
#[derive(Clone, Copy)]
struct Place(&'static str, Count<'static>);

fn across(name: &'static str, x: Pixels) -> Place {
    Place(name, Count(usize::from(x.0), "pixel"))
}

fn down(name: &'static str, y: Rasters) -> Place {
    Place(name, Count(usize::from(y.0), "raster"))
}

// What the register at an address gives.
#[derive(Clone, Copy)]
pub struct Meaning<'a> {
    pub registers: &'a Registers,
    pub address: usize,
}

impl Meaning<'_> {
    // What a timing register places, but for HIR.
    fn place(&self) -> Place {
        let s = self.registers.setting();
        match self.address {
            Registers::HCR => across("N", s.n),
            Registers::HSWR => across("HS", s.hs),
            Registers::HBSR => across("BS", s.bs),
            Registers::HDSR => across("DS", s.ds),
            Registers::HDER => across("DE", s.de),
            Registers::HBER => across("BE", s.be),
            Registers::HCSR => across("CX", s.cx),
            Registers::VCR => down("V", s.v),
            Registers::VSWR => down("VS", s.vs),
            Registers::VBSR => down("VBS", s.vbs),
            Registers::VDSR => down("VDS", s.vds),
            Registers::VDER => down("VDE", s.vde),
            Registers::VBER => down("VBE", s.vbe),
            Registers::VCSR => down("VCS", s.vcs),
            _ => down("VCE", s.vce),
        }
    }

    // A timing register, HCR to VCER.
    fn timing<W: fmt::Write>(&self, f: &mut fmt::Formatter<W>) -> fmt::Result {
        let has_depth = self.registers.written[Registers::CONTROL / 4];
        let sub_position = self.registers.sub_position();
        let Place(name, count) = self.place();
        match self.address {
            Registers::HDSR | Registers::HDER if !has_depth => {
                write!(f, "{name} needs the depth, and control is never written")
            }
            Registers::HCSR if sub_position != 0 => {
                write!(f, "{name} = {count}, sub-position {sub_position}")
            }
            Registers::HIR => f.write_str("used with interlace only"),
            _ => write!(f, "{name} = {count}"),
        }
    }
}

impl fmt::Display for Meaning<'_> {
    fn fmt<W: fmt::Write>(&self, f: &mut fmt::Formatter<W>) -> fmt::Result {
        let g = self.registers;
        let slot = self.address / 4;
        match self.address {
            Registers::PALETTE_0..=Registers::PALETTE_15 => write!(
                f,
                "{}",
                Colour(Apart::of(g.palette(slot as u8)))
            ),
            Registers::BORDER => write!(f, "{}", Colour(Apart::of(g.border()))),
            Registers::CURSOR_1..=Registers::CURSOR_3 => write!(
                f,
                "{}",
                Colour(Apart::of(g.cursor_colour((slot - 16) as u8)))
            ),
            Registers::STEREO_7..=Registers::STEREO_6 => write!(
                f,
                "{}",
                Stereo(g.stereo(((slot - 17) % 8) as u8))
            ),
            Registers::HCR..=Registers::VCER => self.timing(f),
            Registers::SOUND_FREQUENCY => write!(f, "{}", Rate(g.sound_frequency())),
            Registers::CONTROL => write!(f, "{}", Control(g)),
            _ => f.write_str("no register"),
        }
    }
}
