// The control register, and what its bit fields choose.
ghost use Rattle.std.specs.Prelude.{◌≡◌};
ghost use Rattle.registers.specs.Control.{
  control,
  depth_of,
  display_offset,
  entries_in_use,
  interlaced,
  pixel_rate,
  test_mode,
};

use crate::record::Registers;

// What a depth stands for: bits for each pixel, the display's offset, palette entries in use.
#[derive(Clone, Copy)]
struct Depth {
    bits: u8,
    offset: u8,
    entries: u8,
}

impl Registers {
    // In MHz, by control bits 1-0.
    const PIXEL_RATES: [u8; 4] = [8, 12, 16, 24];

    // By control bits 3-2.
    const DEPTHS: [Depth; 4] = [
        Depth {
            bits: 1,
            offset: 19,
            entries: 2,
        },
        Depth {
            bits: 2,
            offset: 11,
            entries: 4,
        },
        Depth {
            bits: 4,
            offset: 7,
            entries: 16,
        },
        Depth {
            bits: 8,
            offset: 5,
            entries: 16,
        },
    ];

    // The control register's data.
    pub fn control(self) -> u32
        ensures { result ≡ control self }
    {
        self.value(Self::CONTROL)
    }

    // The pixel rate in MHz.
    pub fn pixel_rate(self) -> u8
        ensures { result ≡ pixel_rate self }
    {
        let choice = (self.control() % 4) as usize;
        Self::PIXEL_RATES[choice]
    }

    fn depth_chosen(self) -> Depth
        ensures bits { result.bits ≡ depth_of self }
        ensures offset { result.offset ≡ display_offset self }
        ensures entries { result.entries ≡ entries_in_use self }
    {
        Self::DEPTHS[(self.control() / 4 % 4) as usize]
    }

    pub(crate) fn depth(self) -> u8
        ensures { result ≡ depth_of self }
    {
        self.depth_chosen().bits
    }

    pub(crate) fn display_offset(self) -> u8
        ensures { result ≡ display_offset self }
    {
        self.depth_chosen().offset
    }

    // How many palette entries are in use.
    pub fn entries_in_use(self) -> u8
        ensures { result ≡ entries_in_use self }
    {
        self.depth_chosen().entries
    }

    pub(crate) fn is_test_mode(self) -> bool
        ensures { result ≡ test_mode self }
    {
        self.control() / 0x4000 % 4 != 0
    }

    pub(crate) fn is_interlaced(self) -> bool
        ensures { result ≡ interlaced self }
    {
        self.control() / 0x40 % 2 != 0
    }
}
