// A TLB that counts what is loaded into it.
ghost use Rattle.space_tests.specs.CountedLoads.{counted_loads};

use tlb::{Entry, Tlb};
use words::{Page, Translation};

// Also a load of an entry that says nothing of the page is counted, though no pair changes.
#[derive(Drop)]
pub struct CountedLoads<T> {
    pub tlb: T,
    pub loads: u32,
}

impl<T: Tlb> Tlb for CountedLoads<T> {
    ghost meaning = { counted_loads T.Tlb.meaning };

    fn probe(&mut self, page: Page) -> Option<Translation> {
        self.tlb.probe(page)
    }

    fn load(&mut self, entry: Entry, page: Page) {
        self.tlb.load(entry, page);
        self.loads = self.loads.saturating_add(1);
    }

    fn purge(&mut self, page: Page) {
        self.tlb.purge(page);
    }

    fn flush(&mut self) {
        self.tlb.flush();
    }
}
