// What each block holds: its node, and its row where no compact word can have its pages.
ghost use Rattle.std.specs.Prelude.{◌≡◌, ℕ, ◌+◌, ◌^◌, ◌<◌, true, None, Some, MatchOption, MatchResult, OnOk, IfSome};
ghost use Rattle.arrayvec.specs.ArrayVec.{array_vec_len};
ghost use Rattle.words.specs.Points.{at};
ghost use Rattle.chains.specs.Counting.{how_many};
ghost use Rattle.blocks.specs.Shapes.{InPlace};
ghost use Rattle.blocks.specs.Rows.{occurs};
ghost use Rattle.blocks.specs.Held.{has_row, is_narrow, owners, block_pages, word_body, HasNode};
ghost use Rattle.chains.specs.Chains.{body_of};
ghost use Rattle.chains.specs.Orders.{no_order, place_of};
ghost use Rattle.chains.specs.declared.node.Body.TheVariants as body;
ghost use Rattle.words.specs.Layout.{block_of, page_at};
ghost use Rattle.words.specs.Refusals.{First, Accepted};
ghost use Rattle.blocks.specs.Faults.{room_number};

use crate::fault::NoRoom;
use crate::row::Row;
use crate::rows::Rows;
use crate::shape::{Shape, changed};
use chains::{Body, Chains, RowNumber};
use words::{Block, CompactWord, Offset, Page, Translation, Word};

// Each row is spare or of just one block. A block has a row exactly where no compact word can have its pages; where one can, its node has
// that word. That words have 64 bits is kept since the definitions take a word for any number.
#[derive(Drop)]
pub struct Blocks {
    chains: Chains,
    rows: Rows,
    ghost lent: { (i : ℕ) → i < 128 → occurs i rows.spare.items + owners chains i ≡ 1 },
    ghost taken: { array_vec_len rows.spare + how_many (has_row chains) (2 ^ 48) ≡ 128 },
    ghost narrow: { (b : ℕ) → is_narrow (body_of chains b) ≡ true },
    ghost mixed: { (b k a : ℕ) → has_row chains b ≡ true → InPlace (block_pages chains rows.rows b) k a → ⊥ },
}

// A page that was looked up: the word that stands for it, and how many nodes were looked at.
#[derive(Clone, Copy, PartialEq, Eq, Debug)]
pub struct Walked {
    pub word: Word,
    pub looked: u16,
}

impl Blocks {
    ghost use Rattle.blocks.specs.Blocks.{held, order, Walks, Reorders, set_refusals, UsedBlocks, RowedBlocks};

    // No page is mapped.
    pub fn new() -> Blocks
        ensures held { (p : ℕ) → held result p ≡ None }
        ensures order { order result ≡ no_order }
    {
        Blocks {
            chains: Chains::new(),
            rows: Rows::new(),
        }
    }

    // How many blocks have a mapped page.
    pub fn used(&self) -> u16
        ensures { UsedBlocks (held self.now) result }
    {
        self.chains.count()
    }

    // How many blocks have pages that no compact word can have.
    pub fn rowed(&self) -> u16
        ensures { RowedBlocks (held self.now) result }
    {
        self.rows.used()
    }

    // The word of a page; none where it is not mapped.
    pub fn walk(&self, page: Page) -> Option<Walked>
        ensures word { MatchOption result (held self.now page.number ≡ None) (λ w. Walks (held self.now) page.number w) }
        ensures place { IfSome result (λ w. place_of (order self.now) (block_of page.number) ≡ Some w.looked) }
    {
        let found = self.chains.find(page.block())?;
        // a node that was found is not free
        let body = self.chains.body(found.node).unwrap();
        let word = match body {
            Body::Compact(word) => Word::Compact(word),
            Body::Row(row) => Word::Full(self.rows.word(row, page.offset())),
        };
        word.read(page.offset())?;
        Some(Walked {
            word,
            looked: found.looked,
        })
    }

    // Maps a page to a translation, or to none.
    pub fn set(&mut self, page: Page, to: Option<Translation>) -> Result<(), NoRoom>
        ensures held { MatchResult result
            (λ _. Accepted (set_refusals (held self.old) page.number to) × (held self.new ≡ at (held self.old) page.number to))
            (λ e. First (set_refusals (held self.old) page.number to) (room_number e) × (self.new ≡ self.old)) }
        ensures order { OnOk result (Reorders self.old (block_of page.number) self.new) }
    {
        let block = page.block();
        let offset = page.offset();
        match self.node(block) {
            None => self.set_word(block, offset, None, to),
            Some((_, Body::Compact(word))) => self.set_word(block, offset, Some(word), to),
            Some((node, Body::Row(row))) => {
                self.set_row(block, node, row, offset, to);
                Ok(())
            }
        }
    }

    // Unmaps a page.
    pub fn clear(&mut self, page: Page)
        ensures held { held self.new ≡ at (held self.old) page.number None }
        ensures order { Reorders self.old (block_of page.number) self.new }
    {
        // a block that loses a page needs neither a node nor a row
        self.set(page, None).unwrap();
    }

    // The node of a block, and what it has.
    fn node(&self, block: Block) -> Option<(u8, Body)>
        ensures { MatchOption result (body_of self.now.chains block.number ≡ None) (λ n. HasNode self.now.chains block.number n) }
    {
        let found = self.chains.find(block)?;
        let body = self.chains.body(found.node)?;
        Some((found.node, body))
    }

    // Maps a page of a block that has no row: its pages are those of a word, or there is none.
    fn set_word(
        &mut self,
        block: Block,
        offset: Offset,
        word: Option<CompactWord>,
        to: Option<Translation>,
    ) -> Result<(), NoRoom>
        requires { body_of self.old.chains block.number ≡ word_body word }
        ensures held { MatchResult result
            (λ _. Accepted (set_refusals (held self.old) (page_at block.number offset.number) to)
            × (held self.new ≡ at (held self.old) (page_at block.number offset.number) to))
            (λ e. First (set_refusals (held self.old) (page_at block.number offset.number) to) (room_number e) × (self.new ≡ self.old)) }
        ensures order { OnOk result (Reorders self.old block.number self.new) }
    {
        match changed(word, offset, to) {
            Shape::Empty => {
                self.chains.remove(block);
            }
            Shape::Compact(grown) => self.chains.insert(block, Body::Compact(grown))?,
            Shape::Mixed => {
                if word.is_none() && self.chains.count() == 256 {
                    return Err(NoRoom::NoNode);
                }
                let mut row = Row::of_word(word);
                row.set(offset, to);
                let Some(number) = self.rows.take(row) else {
                    return Err(NoRoom::NoRow);
                };
                self.chains.insert(block, Body::Row(number))?;
            }
        }
        Ok(())
    }

    // Maps a page of a block that has a row.
    fn set_row(
        &mut self,
        block: Block,
        node: u8,
        row: RowNumber,
        offset: Offset,
        to: Option<Translation>,
    )
        requires { HasNode self.old.chains block.number (node, body.Row row) }
        ensures room { Accepted (set_refusals (held self.old) (page_at block.number offset.number) to) }
        ensures held { held self.new ≡ at (held self.old) (page_at block.number offset.number) to }
        ensures order { Reorders self.old block.number self.new }
    {
        self.rows.set(row, offset, to);
        match self.rows.shape(row) {
            Shape::Empty => {
                self.rows.give(row);
                self.chains.remove(block);
            }
            Shape::Compact(word) => {
                self.rows.give(row);
                self.chains.replace(node, Body::Compact(word));
            }
            Shape::Mixed => {}
        }
    }
}
