// The least and the greatest grey of the pixels that are flagged.
ghost use Rattle.std.specs.Prelude.{◌≡◌, ◌≤◌};
ghost use Rattle.marks.specs.inner.Seen.{pixels_for, flagged_entry};

use crate::entry::Entry;

// The entry with some count, by the flags of the first so many pixels.
#[tactic(auto, unfolding(crate::specs::Extremes::least_of, crate::specs::Extremes::greatest_of))]
fn entry_below<const END: usize>(greys: &[u8; 256], flags: &[u8; 256], count: u32) -> Entry
    requires { (END ≤ 256) × (count ≤ 2048) }
    ensures { result ≡ flagged_entry greys.now flags.now END count }
{
    let mut least: u8 = 255;
    let mut greatest: u8 = 0;
    for (&grey, &flag) in greys[..END].iter().zip(&flags[..END]) {
        least = least.min(if flag == 0 { 255 } else { grey });
        greatest = greatest.max(if flag == 0 { 0 } else { grey });
    }
    Entry {
        count: count as u16,
        least: u16::from(least),
        greatest: u16::from(greatest),
    }
}

// By the flags of all pixels of a depth: ends that are known beforehand make loops of whole vectors, or none.
pub fn entry_of(greys: &[u8; 256], flags: &[u8; 256], depth: u8, count: u32) -> Entry
    requires { count ≤ 2048 }
    ensures { result ≡ flagged_entry greys.now flags.now (pixels_for depth) count }
{
    match depth {
        8 => entry_below::<256>(greys, flags, count),
        4 => entry_below::<16>(greys, flags, count),
        _ => entry_below::<4>(greys, flags, count),
    }
}
