// The calls as C sees them: each is the library's call of the same name, with the same promise.
#![tactic(auto)]

mod files;
mod frames;
mod levels;
mod loads;
mod mixes;
mod queued;
mod rasters;
mod settings;
mod sounds;
mod summaries;
mod texts;
