// The register library: words, the record, units, control, geometry, load and check.
#![tactic(auto)]

pub mod accept;
pub mod addresses;
pub mod check;
pub mod colours;
mod control;
mod geometry;
mod load;
mod needed;
pub mod record;
pub mod setting;
pub mod sound;
mod stereo;
pub mod units;
