// An entry: a page with the mapping word that stands for it.
ghost use Rattle.std.specs.Prelude.{◌≡◌};
ghost use Rattle.tlb.specs.Entries.{entry_says, entry_offsets};

use words::{OffsetSet, Page, Translation, Word};

#[derive(Clone, Copy)]
pub struct Entry {
    pub page: Page,
    pub word: Word,
}

impl Entry {
    // What the entry says of a page: a compact word speaks of its block, a full word of its own page alone.
    pub fn translation(self, page: Page) -> Option<Translation>
        ensures { result ≡ entry_says self page.number }
    {
        match self.word {
            Word::Compact(word) if page.block() == self.page.block() => word.read(page.offset()),
            Word::Full(word) if page == self.page => word.read(),
            _ => None,
        }
    }

    // The offsets of a compact word, or that of a full word's page.
    pub fn offsets(self) -> OffsetSet
        ensures { result.bits ≡ entry_offsets self }
    {
        match self.word {
            Word::Compact(word) => word.offsets(),
            Word::Full(_) => OffsetSet::from(self.page.offset()),
        }
    }
}
