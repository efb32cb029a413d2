// What every run of calls of an address space obeys: the calls, their answers and refusals, and the page map that says what is right.
#![tactic(auto)]

mod calls;
mod fault;
mod laws;

pub use calls::{Call, Census, Event, Mark, Touched};
pub use fault::{AbandonFault, BeginFault, ReleaseFault, SettleFault, TouchFault};
pub use laws::{frames_are_apart, one_right_answer, what_holds_stays, worked_examples};
