// An address space: a page table, a TLB, an allocator and the fills under way, for any TLB and any allocator.
#![tactic(auto)]

mod fill;
mod plain;
mod space;

pub use fill::{Fill, Unsettled};
pub use fills::Underway;
pub use law::{
    AbandonFault, BeginFault, Call, Census, Event, Mark, ReleaseFault, SettleFault, TouchFault,
    Touched,
};
pub use plain::{PlainSpace, replay};
pub use space::Space;
pub use table::{NotMapped, ProtectFault, Walked};
