// A slot for pages of one block.
ghost use Rattle.std.specs.Prelude.{true, IsSomeAnd, MatchBool};
ghost use Rattle.tlb.specs.PartialSlots.{block_held, block_dropped, at_offsets, of_block, HoldsSome, Loses, IsSlot, BlockRoom};
ghost use Rattle.tlb.specs.Slots.{Becomes};
ghost use Rattle.tlb.specs.PartialLaws;

use crate::enter::Enter;
use crate::entry::Entry;
use crate::page_slot::PageSlot;
use crate::slot::Slot;
use words::{Block, CompactWord, OffsetSet, Page, Translation, Word};

// A subblock is some pages of a block, properly placed in one frame block with equal attributes, as a compact word has them;
// a single page may be on any frame.
#[derive(Clone, Copy)]
pub enum PartialSlot {
    Subblock { block: Block, word: CompactWord },
    Single(PageSlot),
}

// A slot of the row, which may be empty.
trait BlockSlot {
    // Whether the slot holds a page of the block at one of the offsets.
    fn overlaps(&self, block: Block, offsets: OffsetSet) -> bool;

    // Clears the offsets in the slot, of whatever block it is; one that loses its last page becomes empty.
    fn clear(&mut self, offsets: OffsetSet);
}

impl BlockSlot for Option<PartialSlot> {
    #[tactic(auto, using(crate::specs::Clearing::meeting_slot))]
    fn overlaps(&self, block: Block, offsets: OffsetSet) -> bool
        ensures { MatchBool result
            (HoldsSome (of_block block.number offsets.bits) self.now)
            (HoldsSome (of_block block.number offsets.bits) self.now → ⊥) }
    {
        match self {
            Some(PartialSlot::Subblock { block: own, word }) => *own == block
                && word.offsets().meets(offsets),
            Some(PartialSlot::Single(slot)) => slot.page.block() == block
                && offsets.has(slot.page.offset()),
            None => false,
        }
    }

    #[tactic(auto, using(crate::specs::Clearing::single_gone, crate::specs::Clearing::single_stays))]
    fn clear(&mut self, offsets: OffsetSet)
        ensures { Becomes (Loses (at_offsets offsets.bits)) self.old self.new }
    {
        match self {
            Some(PartialSlot::Subblock { word, .. }) => match word.without_all(offsets) {
                Some(left) => *word = left,
                None => *self = None,
            },
            Some(PartialSlot::Single(slot)) => {
                if offsets.has(slot.page.offset()) {
                    *self = None;
                }
            }
            None => {}
        }
    }
}

impl Slot for PartialSlot {
    ghost held = { block_held };

    ghost dropped = { block_dropped };

    ghost kept = { λ xs. true };

    ghost slot_laws = { PartialLaws.drops };

    fn answer(&self, page: Page) -> Option<Translation> {
        match self {
            PartialSlot::Subblock { block, word } if *block == page.block() => {
                word.read(page.offset())
            }
            PartialSlot::Subblock { .. } => None,
            PartialSlot::Single(slot) => slot.answer(page),
        }
    }

    fn drop_page(slot: &mut Option<PartialSlot>, page: Page) {
        let offsets = OffsetSet::from(page.offset());
        if slot.overlaps(page.block(), offsets) {
            slot.clear(offsets);
        }
    }
}

impl Enter for PartialSlot {
    ghost room = { λ xs e p. BlockRoom xs e };

    ghost taken = { λ o e p t n. IsSomeAnd n (IsSlot e p t) };

    ghost enter_laws = { PartialLaws.enters };

    // The entry's pages are cleared in every slot of its block, and no place is found.
    fn make_room(slots: &mut [Option<PartialSlot>], entry: Entry, _: Page) -> Option<usize> {
        let block = entry.page.block();
        let offsets = entry.offsets();
        for i in 0..slots.len() {
            if slots[i].overlaps(block, offsets) {
                slots[i].clear(offsets);
            }
        }
        None
    }

    fn take_in(slot: &mut Option<PartialSlot>, entry: Entry, page: Page, translation: Translation) {
        *slot = Some(match entry.word {
            Word::Compact(word) => PartialSlot::Subblock {
                block: entry.page.block(),
                word,
            },
            Word::Full(_) => PartialSlot::Single(PageSlot { page, translation }),
        });
    }
}
