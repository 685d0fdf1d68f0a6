// The values of words in lent memory: left then right of each byte, lowest byte first.
ghost use Rattle.std.specs.Prelude.{◌≡◌, ◌+◌, ◌*◌, ◌≤◌, [], ◌∷◌, length};
ghost use Rattle.std.proofs.lemmas.List.Edits.{sets};
ghost use Rattle.buffers.specs.Words.{bytes_of};
ghost use Rattle.sound.specs.Values.{counter_after, values_of};
ghost use Rattle.sound.specs.inner.Tables.{left_in, right_in, SixthsOf, Few, Again};

use crate::sixths::Sixths;
use registers::record::Registers;

// The sixths of channels in a row. 8 to 10 are channels 0 to 2 again: so the sixths of a word's four bytes stand side by side.
#[derive(Clone, Copy)]
pub struct Channels {
    sixths: [Sixths; 11],
    ghost few: { Few sixths },
    ghost again: { Again sixths },
}

impl Channels {
    pub fn of(registers: Registers) -> Channels
        ensures { SixthsOf registers result.sixths }
    {
        let mut sixths = [Sixths { left: 0, right: 0 }; 11];
        for channel in 0..11 {
            sixths[channel] = Sixths::at(registers, channel as u8);
        }
        Channels { sixths }
    }

    // A word's values, from the channel that the counter says, stored from a place on.
    fn play_word(&self, word: u32, counter: u32, out: &mut [i16], at: usize)
        requires { at + 8 ≤ length out.old }
        ensures { out.new
            ≡ sets out.old at (values_of (left_in self.now.sixths) (right_in self.now.sixths) counter (bytes_of (word ∷ []))) }
    {
        let channel = (counter % 8) as usize;
        let bytes = word.to_le_bytes();
        for (k, byte) in bytes.iter().enumerate() {
            let sides = self.sixths[channel + k].sides(*byte);
            out[at + 2 * k] = sides.left;
            out[at + 2 * k + 1] = sides.right;
        }
    }

    // The values of all words, from the first place on, and the counter after the last byte: after 4,294,967,295 it starts again at 0.
    pub fn play(&self, words: &[u32], counter: u32, out: &mut [i16]) -> u32
        requires { 8 * length words.now ≤ length out.old }
        ensures { (result ≡ counter_after counter (4 * length words.now))
            × (out.new
            ≡ sets out.old 0 (values_of (left_in self.now.sixths) (right_in self.now.sixths) counter (bytes_of words.now))) }
    {
        let mut next = counter;
        for (k, word) in words.iter().enumerate() {
            self.play_word(*word, next, out, 8 * k);
            next = next.wrapping_add(4);
        }
        next
    }
}
