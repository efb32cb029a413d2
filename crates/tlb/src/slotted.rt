// A TLB of slots as a TLB.
ghost use Rattle.std.specs.Prelude.{ℕ};
ghost use Rattle.tlb.specs.Meaning.{Agree, Lacks};
ghost use Rattle.tlb.specs.Slotted.{slotted, AllEmpty};

use crate::enter::Enter;
use crate::entry::Entry;
use crate::hand::Hand;
use crate::search::{find, purge};
use crate::slot_tlb::SlotTlb;
use crate::store::store;
use crate::tlb::Tlb;
use words::{Page, Translation};

impl<S: Enter> SlotTlb<S> {
    pub fn new() -> SlotTlb<S>
        ensures empty { AllEmpty result }
        ensures gone { (q : ℕ) → Lacks (slotted S.Slot S.Enter.own).pairs result q }
    {
        SlotTlb {
            slots: [None; 64],
            hand: Hand::start(),
        }
    }

    // No page has two translations, whatever was loaded and purged.
    pub fn agrees(&self)
        ensures { Agree (slotted S.Slot S.Enter.own).pairs self.now }
    {}
}

impl<S: Enter> Tlb for SlotTlb<S> {
    ghost meaning = { slotted S.Slot S.Enter.own };

    fn probe(&mut self, page: Page) -> Option<Translation> {
        find(&self.slots, page)
    }

    fn load(&mut self, entry: Entry, page: Page) {
        if let Some(translation) = entry.translation(page) {
            store(&mut self.slots, &mut self.hand, entry, page, translation);
        }
    }

    fn purge(&mut self, page: Page) {
        purge(&mut self.slots, page);
    }

    fn flush(&mut self) {
        *self = SlotTlb::new();
    }
}
