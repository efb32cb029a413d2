// Plays the records of a trace on an address space, and writes a line for each.
#![tactic(auto)]

mod fault;
mod playing;
mod sending;
mod steps;

pub use playing::{MOST_BYTES, play, run};
pub use steps::step;
