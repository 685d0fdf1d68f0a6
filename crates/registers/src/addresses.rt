// The registers' addresses, and the limits of a list and of a record.
ghost use Rattle.std.specs.Prelude.{◌≡◌};
ghost use Rattle.registers.specs.Addresses.{addresses};

use crate::record::Registers;

impl Registers {
    // The most words that one list may have.
    pub const MOST_WORDS: usize = 1024;
    // How many addresses there are, reserved ones included.
    pub const SLOTS: usize = 64;

    pub const PALETTE_0: usize = 0x00;

    pub const PALETTE_1: usize = 0x04;

    pub const PALETTE_2: usize = 0x08;

    pub const PALETTE_3: usize = 0x0C;

    pub const PALETTE_4: usize = 0x10;

    pub const PALETTE_5: usize = 0x14;

    pub const PALETTE_6: usize = 0x18;

    pub const PALETTE_7: usize = 0x1C;

    pub const PALETTE_8: usize = 0x20;

    pub const PALETTE_9: usize = 0x24;

    pub const PALETTE_10: usize = 0x28;

    pub const PALETTE_11: usize = 0x2C;

    pub const PALETTE_12: usize = 0x30;

    pub const PALETTE_13: usize = 0x34;

    pub const PALETTE_14: usize = 0x38;

    pub const PALETTE_15: usize = 0x3C;

    pub const BORDER: usize = 0x40;

    pub const CURSOR_1: usize = 0x44;

    pub const CURSOR_2: usize = 0x48;

    pub const CURSOR_3: usize = 0x4C;

    pub const STEREO_7: usize = 0x60;

    pub const STEREO_0: usize = 0x64;

    pub const STEREO_1: usize = 0x68;

    pub const STEREO_2: usize = 0x6C;

    pub const STEREO_3: usize = 0x70;

    pub const STEREO_4: usize = 0x74;

    pub const STEREO_5: usize = 0x78;

    pub const STEREO_6: usize = 0x7C;

    pub const HCR: usize = 0x80;

    pub const HSWR: usize = 0x84;

    pub const HBSR: usize = 0x88;

    pub const HDSR: usize = 0x8C;

    pub const HDER: usize = 0x90;

    pub const HBER: usize = 0x94;

    pub const HCSR: usize = 0x98;

    pub const HIR: usize = 0x9C;

    pub const VCR: usize = 0xA0;

    pub const VSWR: usize = 0xA4;

    pub const VBSR: usize = 0xA8;

    pub const VDSR: usize = 0xAC;

    pub const VDER: usize = 0xB0;

    pub const VBER: usize = 0xB4;

    pub const VCSR: usize = 0xB8;

    pub const VCER: usize = 0xBC;

    pub const SOUND_FREQUENCY: usize = 0xC0;

    pub const CONTROL: usize = 0xE0;

    const ADDRESSES: [usize; 46] = [
        Self::PALETTE_0,
        Self::PALETTE_1,
        Self::PALETTE_2,
        Self::PALETTE_3,
        Self::PALETTE_4,
        Self::PALETTE_5,
        Self::PALETTE_6,
        Self::PALETTE_7,
        Self::PALETTE_8,
        Self::PALETTE_9,
        Self::PALETTE_10,
        Self::PALETTE_11,
        Self::PALETTE_12,
        Self::PALETTE_13,
        Self::PALETTE_14,
        Self::PALETTE_15,
        Self::BORDER,
        Self::CURSOR_1,
        Self::CURSOR_2,
        Self::CURSOR_3,
        Self::STEREO_7,
        Self::STEREO_0,
        Self::STEREO_1,
        Self::STEREO_2,
        Self::STEREO_3,
        Self::STEREO_4,
        Self::STEREO_5,
        Self::STEREO_6,
        Self::HCR,
        Self::HSWR,
        Self::HBSR,
        Self::HDSR,
        Self::HDER,
        Self::HBER,
        Self::HCSR,
        Self::HIR,
        Self::VCR,
        Self::VSWR,
        Self::VBSR,
        Self::VDSR,
        Self::VDER,
        Self::VBER,
        Self::VCSR,
        Self::VCER,
        Self::SOUND_FREQUENCY,
        Self::CONTROL,
    ];

    // Every register's address, lowest first.
    pub fn addresses() -> [usize; 46]
        ensures { result ≡ addresses }
    {
        Self::ADDRESSES
    }
}
