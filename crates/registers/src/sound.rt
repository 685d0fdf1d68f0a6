// What sound asks of a record: C0H and all stereo registers, 3 then 10.
ghost use Rattle.std.specs.Prelude.{◌≡◌};
ghost use Rattle.refusals.specs.Refusals.{says};
ghost use Rattle.registers.specs.Sound.{sound_told};

use crate::record::Registers;
use refusals::Refusal;

impl Registers {
    // Whether sound may be played: 3 or 10 with the lowest address, else done.
    #[tactic(auto, using(crate::proofs::First::slots), unfolding(crate::specs::Sound::sound_told))]
    pub fn check_sound(self) -> Result<(), Refusal>
        ensures { says result ≡ sound_told self }
    {
        if let Some(slot) = self.lowest_sound_missing() {
            return Err(Refusal::Unwritten(4 * slot as u32));
        }
        if let Some(slot) = self.lowest_sound_wrong() {
            return Err(Refusal::Sound(4 * slot as u32));
        }
        Ok(())
    }
}
