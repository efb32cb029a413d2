// Examples of address spaces, with TLBs and allocators of their own beside those of the repository.
#![tactic(auto)]

mod counted_loads;
mod counted_refusals;
mod no_frames;
mod one_pair;
#[cfg(test)]
mod refusals;
#[cfg(test)]
mod replays;
#[cfg(test)]
mod steps;
#[cfg(test)]
mod tests;

pub use counted_loads::CountedLoads;
pub use counted_refusals::CountedRefusals;
pub use no_frames::NoFrames;
pub use one_pair::OnePairTlb;
