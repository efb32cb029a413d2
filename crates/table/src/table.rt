// A page table, by what it maps each page to and by the order of its blocks.
ghost use Rattle.std.specs.Prelude.{◌≡◌, ℕ, ◌^◌, None, Some, is_some, MatchResult, OnOk, IfOk};
ghost use Rattle.chains.specs.Counting.{how_many};
ghost use Rattle.blocks.specs.Blocks.{held, Walks};
ghost use Rattle.words.specs.Layout.{block_of};
ghost use Rattle.chains.specs.Orders.{no_order, place_of};
ghost use Rattle.table.specs.Calls.{mapped, protected, released, mapped_order, released_order, map_refusals, mapped_refusals, protect_refusals, Counts};
ghost use Rattle.table.specs.Faults.{map_number, protect_number, not_mapped_number};
ghost use Rattle.words.specs.Refusals.{First, Accepted};

use crate::fault::{MapFault, NotMapped, ProtectFault};
use blocks::{Blocks, Walked};
use std::mem::size_of;
use words::{Page, Translation};

// The most that a table may take.
const _: () = prove!(size_of::<PageTable>() <= 24_576);

// The count of mapped pages is kept, so that none has to be counted.
#[derive(Drop)]
pub struct PageTable {
    blocks: Blocks,
    pages: u16,
    ghost counted: { pages ≡ how_many (λ p. is_some (held blocks p)) (2 ^ 52) },
}

// How many blocks have a mapped page, and so a node; how many of them need a row; and how many pages are mapped.
#[derive(Clone, Copy, PartialEq, Eq, Debug)]
pub struct TableCensus {
    pub nodes: u16,
    pub rows: u16,
    pub pages: u16,
}

impl PageTable {
    ghost use Rattle.table.specs.Table.{mapping, order};

    // No page is mapped.
    pub fn new() -> PageTable
        ensures held { (p : ℕ) → mapping result p ≡ None }
        ensures order { order result ≡ no_order }
    {
        PageTable {
            blocks: Blocks::new(),
            pages: 0,
        }
    }

    // The word of a page, and how many nodes were looked at to find it.
    pub fn walk(&self, page: Page) -> Result<Walked, NotMapped>
        ensures word { MatchResult result
            (λ w. Walks (mapping self.now) page.number w)
            (λ _. First (mapped_refusals (mapping self.now) page.number) not_mapped_number) }
        ensures place { IfOk result (λ w. place_of (order self.now) (block_of page.number) ≡ Some w.looked) }
    {
        self.blocks.walk(page).ok_or(NotMapped)
    }

    // What a page is mapped to.
    #[tactic(auto, using(blocks::proofs::Looks::walk_says))]
    pub fn lookup(&self, page: Page) -> Option<Translation>
        ensures { result ≡ mapping self.now page.number }
    {
        self.blocks.walk(page)?.word.read(page.offset())
    }

    // Maps a page that is not mapped.
    pub fn map(&mut self, page: Page, translation: Translation) -> Result<(), MapFault>
        ensures held { MatchResult result
            (λ _. Accepted (map_refusals (mapping self.old) page.number translation)
            × (mapping self.new ≡ mapped (mapping self.old) page.number translation))
            (λ e. First (map_refusals (mapping self.old) page.number translation) (map_number e) × (self.new ≡ self.old)) }
        ensures order { OnOk result
            (order self.new ≡ mapped_order (mapping self.old) page.number translation (order self.old)) }
    {
        if self.lookup(page).is_some() {
            return Err(MapFault::Mapped);
        }
        self.blocks.set(page, Some(translation))?;
        self.pages += 1;
        Ok(())
    }

    // Unmaps a page; what it was mapped to.
    pub fn unmap(&mut self, page: Page) -> Result<Translation, NotMapped>
        ensures held { MatchResult result
            (λ t. (mapping self.old page.number ≡ Some t) × (mapping self.new ≡ released (mapping self.old) page.number))
            (λ _. First (mapped_refusals (mapping self.old) page.number) not_mapped_number × (self.new ≡ self.old)) }
        ensures order { OnOk result (order self.new ≡ released_order (mapping self.old) page.number (order self.old)) }
    {
        let translation = self.lookup(page).ok_or(NotMapped)?;
        self.blocks.clear(page);
        self.pages -= 1;
        Ok(translation)
    }

    // Gives a page other attributes; those that it had.
    pub fn protect(&mut self, page: Page, attributes: u16) -> Result<u16, ProtectFault>
        ensures held { MatchResult result
            (λ x. Accepted (protect_refusals (mapping self.old) page.number attributes)
            × ((t : Translation) × (mapping self.old page.number ≡ Some t) × (x ≡ t.attributes))
            × (mapping self.new ≡ protected (mapping self.old) page.number attributes))
            (λ e. First (protect_refusals (mapping self.old) page.number attributes) (protect_number e) × (self.new ≡ self.old)) }
        ensures order { order self.new ≡ order self.old }
    {
        if attributes > 4095 {
            return Err(ProtectFault::BadAttributes);
        }
        let former = self.lookup(page).ok_or(ProtectFault::NotMapped)?;
        let translation = Translation {
            frame: former.frame,
            attributes,
        };
        match self.blocks.set(page, Some(translation)) {
            Ok(()) => Ok(former.attributes),
            // the block has a node
            Err(_) => Err(ProtectFault::NoRow),
        }
    }

    pub fn census(&self) -> TableCensus
        ensures { Counts (mapping self.now) result.nodes result.rows result.pages }
    {
        TableCensus {
            nodes: self.blocks.used(),
            rows: self.blocks.rowed(),
            pages: self.pages,
        }
    }
}
