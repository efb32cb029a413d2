// Two TLBs, one before the other.
ghost use Rattle.std.specs.Prelude.{◌≡◌};
ghost use Rattle.tlb.specs.TwoLevel.{two_level};

use crate::entry::Entry;
use crate::tlb::Tlb;
use words::{FullWord, Page, Translation, Word};

#[derive(Drop)]
pub struct TwoLevelTlb<A, B> {
    pub first: A,
    pub second: B,
}

impl<A: Tlb, B: Tlb> TwoLevelTlb<A, B> {
    pub fn new(first: A, second: B) -> TwoLevelTlb<A, B>
        ensures { (result.first ≡ first) × (result.second ≡ second) }
    {
        TwoLevelTlb { first, second }
    }
}

impl<A: Tlb, B: Tlb> Tlb for TwoLevelTlb<A, B> {
    ghost meaning = { two_level A.Tlb.meaning B.Tlb.meaning };

    // The first level takes in what only the second has.
    fn probe(&mut self, page: Page) -> Option<Translation> {
        if let Some(translation) = self.first.probe(page) {
            return Some(translation);
        }
        let Some(translation) = self.second.probe(page) else {
            return None;
        };
        let word = Word::Full(FullWord::of_page(translation));
        self.first.load(Entry { page, word }, page);
        Some(translation)
    }

    fn load(&mut self, entry: Entry, page: Page) {
        self.first.load(entry, page);
        self.second.load(entry, page);
    }

    fn purge(&mut self, page: Page) {
        self.first.purge(page);
        self.second.purge(page);
    }

    fn flush(&mut self) {
        self.first.flush();
        self.second.flush();
    }
}
