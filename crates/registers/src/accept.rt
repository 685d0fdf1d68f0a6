// Load and check: the record that a list leaves where it is accepted, else the record as it was. No list is loaded without being judged.
ghost use Rattle.std.specs.Prelude.{◌≡◌};
ghost use Rattle.refusals.specs.Refusals.{says};
ghost use Rattle.registers.specs.Accept.{accept_told, accept_sound_told, handed_back};

use crate::load::{apply, judge_words};
use crate::record::Registers;
use crate::setting::Setting;
use refusals::Refusal;

impl Registers {
    // The words applied to this record, and what they leave checked: 1, 2, then 3 to 6, 19, 7 to 9. On a refusal the record stays as it was.
    #[tactic(auto, using(crate::proofs::Accepting::load_and_check))]
    pub fn load_and_check(&mut self, words: &[u32]) -> Result<Setting, Refusal>
        ensures told { says result ≡ accept_told self.old words.now }
        ensures left { self.new ≡ handed_back (accept_told self.old words.now) self.old words.now }
    {
        // what every picture call asks: nothing is stored, so no copy is made of the record
        if words.is_empty() {
            return self.check();
        }
        judge_words(words)?;
        let loaded = apply(*self, words);
        let setting = loaded.check()?;
        *self = loaded;
        Ok(setting)
    }

    // The same for sound alone: 1, 2, then 3, 10.
    #[tactic(auto, using(crate::proofs::Accepting::load_and_check_sound))]
    pub fn load_and_check_sound(&mut self, words: &[u32]) -> Result<(), Refusal>
        ensures told { says result ≡ accept_sound_told self.old words.now }
        ensures left { self.new ≡ handed_back (accept_sound_told self.old words.now) self.old words.now }
    {
        judge_words(words)?;
        let loaded = apply(*self, words);
        loaded.check_sound()?;
        *self = loaded;
        Ok(())
    }
}
