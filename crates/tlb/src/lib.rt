// TLBs that are filled in software.
#![tactic(auto)]

mod enter;
mod entry;
mod hand;
mod laws;
mod page_slot;
mod partial_slot;
mod search;
mod slot;
mod slot_tlb;
mod slotted;
mod store;
mod tlb;
mod two_level;

pub use enter::Enter;
pub use entry::Entry;
pub use hand::Hand;
pub use laws::{
    one_page_first_means, one_page_means, partial_subblock_first_means, partial_subblock_means,
    two_level_means,
};
pub use page_slot::PageSlot;
pub use partial_slot::PartialSlot;
pub use search::{find, place, purge, vacate};
pub use slot::Slot;
pub use slot_tlb::{OnePageTlb, PartialSubblockTlb, SlotTlb};
pub use tlb::Tlb;
pub use two_level::TwoLevelTlb;
