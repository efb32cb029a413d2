// Slots that are filled in turn: what is held in them, and which is filled next.
ghost use Rattle.std.specs.Prelude.{◌≡◌, ◌+◌, ◌==◌, not, filter, if◌then◌else◌, nat_lt, vec_len};

use crate::pairs::PairList;
use std::alloc::Global;

#[derive(Drop)]
pub struct Slots {
    pub pairs: PairList,
    hand: u8,
}

impl Slots {
    pub fn new(heap: Global) -> Slots
        ensures { (vec_len result.pairs.held ≡ 0) × (result.hand ≡ 0) }
    {
        Slots {
            pairs: PairList::new(heap),
            hand: 0,
        }
    }

    // Empties the slot at the hand, and moves the hand on, from 63 to 0.
    pub fn free_slot(&mut self) -> u8
        ensures slot { result ≡ self.old.hand }
        ensures emptied { self.new.pairs.held.items ≡ filter (λ h. not (h.slot == result)) self.old.pairs.held.items }
        ensures hand { self.new.hand ≡ (if nat_lt result 63 then result + 1 else 0) }
    {
        let slot = self.hand;
        self.pairs.drop_slot(slot);
        self.hand = if slot < 63 { slot + 1 } else { 0 };
        slot
    }

    pub fn clear(&mut self)
        ensures { (vec_len self.new.pairs.held ≡ 0) × (self.new.hand ≡ 0) }
    {
        self.pairs.clear();
        self.hand = 0;
    }
}
