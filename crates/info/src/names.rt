// The registers' names, by address.
use registers::record::Registers;
use std::fmt;

// The timing registers, 80H to BCH.
const TIMING: [&str; 16] = [
    "HCR", "HSWR", "HBSR", "HDSR", "HDER", "HBER", "HCSR", "HIR", "VCR", "VSWR", "VBSR", "VDSR",
    "VDER", "VBER", "VCSR", "VCER",
];

// The name of the register at an address.
#[derive(Clone, Copy)]
pub struct Name(pub usize);

impl fmt::Display for Name {
    fn fmt<W: fmt::Write>(&self, f: &mut fmt::Formatter<W>) -> fmt::Result {
        let slot = self.0 / 4;
        match self.0 {
            Registers::PALETTE_0..=Registers::PALETTE_15 => write!(f, "palette {slot}"),
            Registers::BORDER => f.write_str("border"),
            Registers::CURSOR_1..=Registers::CURSOR_3 => write!(f, "cursor {}", slot - 16),
            Registers::STEREO_7 => f.write_str("stereo 7"),
            Registers::STEREO_0..=Registers::STEREO_6 => write!(f, "stereo {}", slot - 25),
            Registers::HCR..=Registers::VCER => f.write_str(TIMING[slot - 32]),
            Registers::SOUND_FREQUENCY => f.write_str("sound frequency"),
            Registers::CONTROL => f.write_str("control"),
            _ => f.write_str("reserved"),
        }
    }
}

// An address as the data sheet writes it, as 80H.
#[derive(Clone, Copy)]
pub struct Address(pub usize);

impl fmt::Display for Address {
    fn fmt<W: fmt::Write>(&self, f: &mut fmt::Formatter<W>) -> fmt::Result {
        let address = self.0;
        write!(f, "{address:02X}H")
    }
}

// A register's name, and its address behind it.
#[derive(Clone, Copy)]
pub struct Named(pub u32);

impl fmt::Display for Named {
    fn fmt<W: fmt::Write>(&self, f: &mut fmt::Formatter<W>) -> fmt::Result {
        let address = self.0 as usize;
        write!(f, "{} ({})", Name(address), Address(address))
    }
}
