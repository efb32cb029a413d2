// A TLB of slots of one kind.
ghost use Rattle.std.specs.Prelude.{◌≡◌, ℕ, ◌≤◌, true};
ghost use Rattle.tlb.specs.Slots.{in_slot, holders};

use crate::hand::Hand;
use crate::page_slot::PageSlot;
use crate::partial_slot::PartialSlot;
use crate::slot::Slot;

// At most one slot holds a page, and the row is as its kind of slot keeps it.
#[derive(Drop)]
pub struct SlotTlb<S: Slot> {
    pub(crate) slots: [Option<S>; 64],
    pub(crate) hand: Hand,
    ghost single: { (p : ℕ) → holders (in_slot S.held) slots p ≤ 1 },
    ghost kept: { S.kept slots ≡ true },
}

// A TLB of slots for one page each.
pub type OnePageTlb = SlotTlb<PageSlot>;

// A TLB of slots for pages of one block each.
pub type PartialSubblockTlb = SlotTlb<PartialSlot>;
