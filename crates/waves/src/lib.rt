// The bytes of a WAV file: its head, and its samples of 16 bits.
#![tactic(auto)]

pub mod head;
pub mod samples;
