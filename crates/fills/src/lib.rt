// The fills under way: pages that wait for their translation, each with what is kept of its fill.
#![tactic(auto)]

mod fault;
mod fills;
mod underway;

pub use fault::{AddFault, NoFill};
pub use fills::Fills;
pub use underway::{Underway, Waiting};
