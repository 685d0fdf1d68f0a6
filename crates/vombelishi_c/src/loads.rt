// Register words loaded into a record that C holds: loaded and checked by the register library, then each stored in both slices.
ghost use Rattle.std.specs.Prelude.{◌≡◌, length};
ghost use Rattle.vombelishi.specs.Code.{answer_code, stored_by};
ghost use Rattle.vombelishi.specs.Load.{accept_call, accept_values_leaves, accept_written_leaves};
ghost use Rattle.vombelishi.specs.Load.{accept_sound_call, sound_values_leaves, sound_written_leaves, word_call, word_values_leaves, word_written_leaves};

// The words stored in order, and the 21 numbers of the setting that they leave; 13 for slices shorter than 64, then 1, 2 and the setting's, then 13
// for `setting`.
#[unsafe(no_mangle)]
pub extern "C" fn vom_load_and_check(
    values: &mut [u32],
    written: &mut [u8],
    words: &[u32],
    setting: &mut [u32],
) -> u64
    ensures { (result ≡ answer_code (accept_call values.old written.old words.now (length setting.old)))
        × (values.new
        ≡ accept_values_leaves values.old written.old words.now (length setting.old))
        × (written.new
        ≡ accept_written_leaves values.old written.old words.now (length setting.old))
        × (setting.new
        ≡ stored_by (accept_call values.old written.old words.now (length setting.old))
        setting.old) }
{
    vombelishi::loads::vom_load_and_check(values, written, words, setting)
}

// The words stored in order where they leave a record that can be played; 13 for slices shorter than 64, then 1, 2, 3, 10.
#[unsafe(no_mangle)]
pub extern "C" fn vom_load_and_check_sound(
    values: &mut [u32],
    written: &mut [u8],
    words: &[u32],
) -> u64
    ensures { (result ≡ answer_code (accept_sound_call values.old written.old words.now))
        × (values.new ≡ sound_values_leaves values.old written.old words.now)
        × (written.new ≡ sound_written_leaves values.old written.old words.now) }
{
    vombelishi::loads::vom_load_and_check_sound(values, written, words)
}

// One word alone; 13 for slices shorter than 64, then 2 with detail 0.
#[unsafe(no_mangle)]
pub extern "C" fn vom_load_word(values: &mut [u32], written: &mut [u8], word: u32) -> u64
    ensures { (result ≡ answer_code (word_call values.old written.old word))
        × (values.new ≡ word_values_leaves values.old written.old word)
        × (written.new ≡ word_written_leaves values.old written.old word) }
{
    vombelishi::loads::vom_load_word(values, written, word)
}
