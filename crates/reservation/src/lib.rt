// A frame allocator that reserves groups of frames for blocks of pages.
#![tactic(auto)]

mod age_order;
mod age_order_calls;
mod bit_set;
mod bit_set_calls;
mod block_index;
mod block_index_calls;
mod choosing;
mod group;
mod group_calls;
mod laws;
mod reservation;
mod reservation_allocator;
mod spot;
mod storing;

pub use group::{Choice, Group, Step, Usage};
pub use laws::{determined, kept_at_offset, open_group_gives_offset};
pub use reservation::ReservationAllocator;
pub use spot::Spot;
