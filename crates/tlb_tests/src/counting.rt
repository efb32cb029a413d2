// A TLB that counts its loads, also those that bring no pair.
ghost use Rattle.tlb_tests.specs.Counting.{counting};

use tlb::{Entry, Tlb};
use words::{Page, Translation};

#[derive(Drop)]
pub struct CountingTlb<T> {
    pub tlb: T,
    pub loads: u64,
}

impl<T: Tlb> Tlb for CountingTlb<T> {
    ghost meaning = { counting T.Tlb.meaning };

    fn probe(&mut self, page: Page) -> Option<Translation> {
        self.tlb.probe(page)
    }

    fn load(&mut self, entry: Entry, page: Page) {
        self.tlb.load(entry, page);
        self.loads = self.loads.wrapping_add(1);
    }

    fn purge(&mut self, page: Page) {
        self.tlb.purge(page);
    }

    fn flush(&mut self) {
        self.tlb.flush();
    }
}
