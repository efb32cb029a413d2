// Frame allocators.
#![tactic(auto)]

mod allocator;
mod fault;
mod free_list;
mod free_list_allocator;
mod stock;
mod stock_calls;

pub use allocator::FrameAllocator;
pub use fault::{AllocateFault, FreeFault};
pub use free_list::FreeListAllocator;
pub use stock::{Place, Stock};
