// The numbers of an accepted setting, and records judged for sound.
ghost use Rattle.std.specs.Prelude.{◌≡◌};
ghost use Rattle.vombelishi.specs.Code.{answer_code};
ghost use Rattle.vombelishi.specs.Settings.{check_sound_call};

// Whether the record can be played; 13 for slices shorter than 64, then 3, 10.
#[unsafe(no_mangle)]
pub extern "C" fn vom_check_sound(values: &[u32], written: &[u8]) -> u64
    ensures { result ≡ answer_code (check_sound_call values.now written.now) }
{
    vombelishi::settings::vom_check_sound(values, written)
}
