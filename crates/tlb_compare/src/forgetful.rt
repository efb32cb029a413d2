// A TLB that loses pairs which its model keeps, so that a comparison has a difference to find. It is a TLB all the same.
ghost use Rattle.tlb_compare.specs.Forgetful.{forgetful};

use tlb::{Entry, Tlb};
use words::{Page, Translation};

#[derive(Drop)]
pub struct ForgetfulTlb<T> {
    pub tlb: T,
}

impl<T: Tlb> Tlb for ForgetfulTlb<T> {
    ghost meaning = { forgetful T.Tlb.meaning };

    fn probe(&mut self, page: Page) -> Option<Translation> {
        self.tlb.probe(page)
    }

    fn load(&mut self, entry: Entry, page: Page) {
        self.tlb.load(entry, page);
    }

    fn purge(&mut self, _page: Page) {
        self.tlb.flush();
    }

    fn flush(&mut self) {
        self.tlb.flush();
    }
}
