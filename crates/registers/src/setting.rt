// A setting: the numbers of an accepted record, each with its unit, and the words that its frame needs.
ghost use Rattle.std.specs.Prelude.{◌≡◌, ◌*◌, ◌/◌};
ghost use Rattle.registers.specs.Setting.{setting_of, display_on, border_on, video_words, cursor_words};

use crate::record::Registers;
use crate::units::{Pixels, Rasters};

#[derive(Clone, Copy, PartialEq, Eq)]
pub struct Setting {
    pub n: Pixels,
    pub hs: Pixels,
    pub bs: Pixels,
    pub ds: Pixels,
    pub de: Pixels,
    pub be: Pixels,
    pub cx: Pixels,
    pub v: Rasters,
    pub vs: Rasters,
    pub vbs: Rasters,
    pub vds: Rasters,
    pub vde: Rasters,
    pub vbe: Rasters,
    pub vcs: Rasters,
    pub vce: Rasters,
    // bits for each pixel: 1, 2, 4 or 8
    pub depth: u8,
    // beside the cursor's rasters, which C is told with the cursor off too
    pub cursor: bool,
}

// The words that hold width · height pixels of some bits each.
fn words_for(width: Pixels, height: Rasters, bits: u8) -> u64
    ensures { result ≡ width.0 * height.0 * bits / 32 }
{
    u64::from(width.0) * u64::from(height.0) * u64::from(bits) / 32
}

impl Setting {
    pub fn display_on(self) -> bool
        ensures { result ≡ display_on self }
    {
        self.vds < self.vde
    }

    pub fn border_on(self) -> bool
        ensures { result ≡ border_on self }
    {
        self.vbs < self.vbe
    }

    #[tactic(auto, unfolding(crate::specs::Setting::video_words))]
    pub fn video_words(self) -> u64
        ensures { result ≡ video_words self }
    {
        if !self.display_on() {
            return 0;
        }
        words_for(
            self.de.width_from(self.ds),
            self.vde.height_from(self.vds),
            self.depth,
        )
    }

    #[tactic(auto, unfolding(crate::specs::Setting::cursor_words))]
    pub fn cursor_words(self) -> u64
        ensures { result ≡ cursor_words self }
    {
        if self.cursor {
            return 2 * u64::from(self.vce.height_from(self.vcs).0);
        }
        0
    }
}

impl Registers {
    // The setting that the record describes, not yet judged.
    #[tactic(auto, unfolding(crate::specs::Setting::setting_of))]
    pub fn setting(self) -> Setting
        ensures { result ≡ setting_of self }
    {
        let k = self.display_offset();
        Setting {
            n: self.pixels(Self::HCR, 2),
            hs: self.pixels(Self::HSWR, 2),
            bs: self.pixels(Self::HBSR, 1),
            ds: self.pixels(Self::HDSR, k),
            de: self.pixels(Self::HDER, k),
            be: self.pixels(Self::HBER, 1),
            cx: self.cursor_start(),
            v: self.rasters(Self::VCR),
            vs: self.rasters(Self::VSWR),
            vbs: self.rasters(Self::VBSR),
            vds: self.rasters(Self::VDSR),
            vde: self.rasters(Self::VDER),
            vbe: self.rasters(Self::VBER),
            vcs: self.rasters(Self::VCSR),
            vce: self.rasters(Self::VCER),
            depth: self.depth(),
            cursor: self.cursor_on(),
        }
    }
}
