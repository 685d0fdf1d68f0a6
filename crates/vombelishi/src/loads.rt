// Register words loaded into a record that C holds: loaded and checked by the register library, then each stored in both slices.
ghost use Rattle.std.specs.Prelude.{◌≡◌, ◌≤◌, length, OnOk};
ghost use Rattle.refusals.specs.Refusals.{says};
ghost use Rattle.vombelishi.specs.Code.{answer_code, stored_by};
ghost use Rattle.vombelishi.specs.Load.{value_stored, flag_stored, values_stored, flags_stored};
ghost use Rattle.vombelishi.specs.Load.{accepted_told, accept_call, accept_values_leaves, accept_written_leaves};
ghost use Rattle.vombelishi.specs.Load.{accept_sound_call, sound_values_leaves, sound_written_leaves, word_call, word_values_leaves, word_written_leaves};

use crate::code::refused;
use crate::put::store;
use crate::record::Lists;
use crate::settings::numbers;
use refusals::Refusal;
use registers::setting::Setting;

// The setting of the record that a list leaves.
#[tactic(auto, using(refusals::proofs::Told::handed_on), unfolding(crate::specs::Load::accepted_told))]
fn judge_list(values: &[u32], written: &[u8], words: &[u32]) -> Result<Setting, Refusal>
    ensures told { says result ≡ accepted_told values.now written.now words.now }
    ensures long { OnOk result ((64 ≤ length values.now) × (64 ≤ length written.now)) }
{
    let mut g = Lists::of(values, written)?.registers();
    g.load_and_check(words)
}

// Whether the record that a list leaves can be played.
#[tactic(auto, using(refusals::proofs::Told::handed_on), unfolding(crate::specs::Load::accept_sound_call))]
fn judge_sound_list(values: &[u32], written: &[u8], words: &[u32]) -> Result<(), Refusal>
    ensures told { says result ≡ accept_sound_call values.now written.now words.now }
    ensures long { OnOk result ((64 ≤ length values.now) × (64 ≤ length written.now)) }
{
    let mut g = Lists::of(values, written)?.registers();
    g.load_and_check_sound(words)
}

#[tactic(auto, using(refusals::proofs::Told::handed_on), unfolding(crate::specs::Load::word_call))]
fn judge_word(values: &[u32], written: &[u8], word: u32) -> Result<(), Refusal>
    ensures told { says result ≡ word_call values.now written.now word }
    ensures long { OnOk result ((64 ≤ length values.now) × (64 ≤ length written.now)) }
{
    let mut g = Lists::of(values, written)?.registers();
    g.load_word(word)
}

fn store_word(values: &mut [u32], written: &mut [u8], word: u32)
    requires { (64 ≤ length values.old) × (64 ≤ length written.old) }
    ensures { (values.new ≡ value_stored values.old word)
        × (written.new ≡ flag_stored written.old word) }
{
    let slot = (word / 0x400_0000) as usize;
    values[slot] = word % 0x100_0000;
    written[slot] = 1;
}

fn store_list(values: &mut [u32], written: &mut [u8], words: &[u32])
    requires { (64 ≤ length values.old) × (64 ≤ length written.old) }
    ensures { (values.new ≡ values_stored values.old words.now)
        × (written.new ≡ flags_stored written.old words.now) }
{
    for word in words {
        store_word(values, written, *word);
    }
}

// The words stored in order, and the 21 numbers of the setting that they leave; 13 for slices shorter than 64, then 1, 2 and the setting's, then 13
// for `setting`.
#[tactic(auto, unfolding(crate::specs::Load::accept_call, crate::specs::Load::accept_values_leaves, crate::specs::Load::accept_written_leaves))]
pub fn vom_load_and_check(
    values: &mut [u32],
    written: &mut [u8],
    words: &[u32],
    setting: &mut [u32],
) -> u64
    ensures { (result ≡ answer_code (accept_call values.old written.old words.now (length setting.old)))
        × (values.new
        ≡ accept_values_leaves values.old written.old words.now (length setting.old))
        × (written.new
        ≡ accept_written_leaves values.old written.old words.now (length setting.old))
        × (setting.new
        ≡ stored_by (accept_call values.old written.old words.now (length setting.old))
        setting.old) }
{
    match judge_list(values, written, words) {
        Err(why) => refused(why),
        Ok(s) => match store(setting, &numbers(s)) {
            Err(why) => refused(why),
            Ok(()) => {
                store_list(values, written, words);
                0
            }
        },
    }
}

// The words stored in order where they leave a record that can be played; 13 for slices shorter than 64, then 1, 2, 3, 10.
#[tactic(auto, unfolding(crate::specs::Load::sound_values_leaves, crate::specs::Load::sound_written_leaves))]
pub fn vom_load_and_check_sound(values: &mut [u32], written: &mut [u8], words: &[u32]) -> u64
    ensures { (result ≡ answer_code (accept_sound_call values.old written.old words.now))
        × (values.new ≡ sound_values_leaves values.old written.old words.now)
        × (written.new ≡ sound_written_leaves values.old written.old words.now) }
{
    match judge_sound_list(values, written, words) {
        Err(why) => refused(why),
        Ok(()) => {
            store_list(values, written, words);
            0
        }
    }
}

// One word alone; 13 for slices shorter than 64, then 2 with detail 0.
#[tactic(auto, unfolding(crate::specs::Load::word_values_leaves, crate::specs::Load::word_written_leaves))]
pub fn vom_load_word(values: &mut [u32], written: &mut [u8], word: u32) -> u64
    ensures { (result ≡ answer_code (word_call values.old written.old word))
        × (values.new ≡ word_values_leaves values.old written.old word)
        × (written.new ≡ word_written_leaves values.old written.old word) }
{
    match judge_word(values, written, word) {
        Err(why) => refused(why),
        Ok(()) => {
            store_word(values, written, word);
            0
        }
    }
}
