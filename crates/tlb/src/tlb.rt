// What a TLB does, whatever it is made of.
ghost use Rattle.std.specs.Prelude.{ℕ};
ghost use Rattle.tlb.specs.Meaning.{TlbMeaning, Lacks, Within, Answers, Loads};

use crate::entry::Entry;
use words::{Page, Translation};

pub trait Tlb {
    ghost meaning: { TlbMeaning Self };

    // A translation of the page; none exactly where the TLB has none.
    fn probe(&mut self, page: Page) -> Option<Translation>
        ensures step { meaning.probed self.old page.number result self.new }
        ensures answer { Answers meaning.pairs self.old page.number result self.new }
        ensures within { Within meaning.pairs self.old self.new };

    // Takes in an entry that says something of the page; any other entry adds no pair and takes none away.
    fn load(&mut self, entry: Entry, page: Page)
        ensures step { meaning.loaded self.old entry page.number self.new }
        ensures loads { Loads meaning.pairs self.old entry page.number self.new };

    // Forgets the page.
    fn purge(&mut self, page: Page)
        ensures step { meaning.purged self.old page.number self.new }
        ensures gone { Lacks meaning.pairs self.new page.number }
        ensures within { Within meaning.pairs self.old self.new };

    // Forgets everything.
    fn flush(&mut self)
        ensures step { meaning.flushed self.old self.new }
        ensures gone { (q : ℕ) → Lacks meaning.pairs self.new q };
}
