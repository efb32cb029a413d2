// A TLB that keeps one pair at most, the one that was loaded last.
ghost use Rattle.space_tests.specs.OnePair.{one_pair};

use tlb::{Entry, PageSlot, Slot, Tlb};
use words::{Page, Translation};

#[derive(Drop)]
pub struct OnePairTlb {
    pub slot: Option<PageSlot>,
}

impl OnePairTlb {
    ghost use Rattle.std.specs.Prelude.{◌≡◌, None};

    pub fn new() -> OnePairTlb
        ensures { result.slot ≡ None }
    {
        OnePairTlb { slot: None }
    }
}

impl Tlb for OnePairTlb {
    ghost meaning = { one_pair };

    fn probe(&mut self, page: Page) -> Option<Translation> {
        self.slot.as_ref()?.answer(page)
    }

    fn load(&mut self, entry: Entry, page: Page) {
        if let Some(translation) = entry.translation(page) {
            self.slot = Some(PageSlot { page, translation });
        }
    }

    fn purge(&mut self, page: Page) {
        PageSlot::drop_page(&mut self.slot, page);
    }

    fn flush(&mut self) {
        self.slot = None;
    }
}
