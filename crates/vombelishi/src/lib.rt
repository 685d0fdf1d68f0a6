// The calls for C and Rust, each thin over a proved call of the crates below. A record crosses as two slices, an answer as one number.
#![tactic(auto)]

mod code;
pub mod files;
pub mod frames;
pub mod levels;
pub mod loads;
pub mod mixes;
mod put;
pub mod queued;
pub mod rasters;
mod record;
pub mod settings;
pub mod sounds;
pub mod summaries;
pub mod texts;
