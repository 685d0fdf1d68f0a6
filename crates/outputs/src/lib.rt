// What the programs write, byte for byte: the run printer's lines, a picture's strips, a sound's blocks. Each is made of a record and its lists.
#![tactic(auto)]

pub mod blocks;
mod line;
mod number;
mod picture;
pub mod strips;
pub mod text;
pub mod whole;
mod words;
