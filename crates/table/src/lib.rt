// The clustered page table: its calls, what each refuses, and what any list of them leaves.
#![tactic(auto)]

mod events;
mod fault;
mod table;

pub use blocks::Walked;
pub use events::{TableCall, TableEvent, replay_table};
pub use fault::{MapFault, NotMapped, ProtectFault};
pub use table::{PageTable, TableCensus};
