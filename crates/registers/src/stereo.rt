// Stereo values and the sound frequency; of what sound needs, the lowest slot that is unwritten, and the lowest that is wrong.
ghost use Rattle.std.specs.Prelude.{◌≡◌};
ghost use Rattle.registers.specs.Lowest.{lowest_slot};
ghost use Rattle.registers.specs.Stereo.{stereo_of, frequency_of, sound_missing, sound_wrong};
ghost use Rattle.registers.specs.inner.Groups.{zero_stereo};

use crate::record::Registers;

impl Registers {
    // The stereo value of a channel, modulo 8: 60H is channel 7's, 64H to 7CH are those of 0 to 6.
    pub fn stereo(self, channel: u8) -> u8
        ensures { result ≡ stereo_of self channel }
    {
        let slot = Self::STEREO_7 / 4 + (usize::from(channel) + 1) % 8;
        (self.values[slot] % 8) as u8
    }

    pub fn sound_frequency(self) -> u8
        ensures { result ≡ frequency_of self }
    {
        (self.values[Self::SOUND_FREQUENCY / 4] % 256) as u8
    }

    // The lowest slot that sound needs and that is unwritten.
    #[tactic(auto, using(crate::proofs::Missing::sound_missing_groups))]
    pub(crate) fn lowest_sound_missing(&self) -> Option<usize>
        ensures { result ≡ lowest_slot (sound_missing self.now) }
    {
        let frequency = self.lowest_unwritten(Self::SOUND_FREQUENCY, Self::SOUND_FREQUENCY);
        self.lowest_unwritten(Self::STEREO_7, Self::STEREO_6)
            .or(frequency)
    }

    // The lowest slot with a stereo value 0.
    fn lowest_zero_stereo(&self) -> Option<usize>
        ensures { result ≡ lowest_slot (zero_stereo self.now.values) }
    {
        (Self::STEREO_7 / 4..Self::STEREO_6 / 4 + 1).find(|slot| self.values[*slot] % 8 == 0)
    }

    // The lowest slot with a stereo value 0 or a sound frequency below 3.
    #[tactic(auto, using(crate::proofs::Missing::sound_wrong_groups))]
    pub(crate) fn lowest_sound_wrong(&self) -> Option<usize>
        ensures { result ≡ lowest_slot (sound_wrong self.now) }
    {
        let frequency = (self.sound_frequency() < 3).then_some(Self::SOUND_FREQUENCY / 4);
        self.lowest_zero_stereo().or(frequency)
    }
}
