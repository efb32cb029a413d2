// What each TLB should do, over plain lists of pairs.
ghost use Rattle.std.specs.Prelude.{◌≡◌, ◌==◌, cond, find, is_some, vec_len, IfOk};
ghost use Rattle.std.specs.Option.{option_map};
ghost use Rattle.tlb_compare.specs.Agreement.{Having};

use crate::plain::{PlainEntry, PlainPair};
use crate::slots::Slots;
use std::alloc::{AllocError, Global};

pub trait Model {
    // What the model has for each page.
    ghost has: { Having Self };

    fn probe(&mut self, page: u64) -> Result<Option<PlainPair>, AllocError>
        ensures { IfOk result (λ answer. answer ≡ has self.old page) };

    fn load(&mut self, entry: PlainEntry, page: u64) -> Result<(), AllocError>;

    fn purge(&mut self, page: u64);

    fn flush(&mut self);
}

// How slots take in an entry that has this pair of the page.
pub trait LoadRule {
    fn take_in(
        &self,
        slots: &mut Slots,
        entry: PlainEntry,
        pair: PlainPair,
    ) -> Result<(), AllocError>;
}

// A slot holds one page, and a page that is held keeps its slot.
#[derive(Clone, Copy)]
pub struct OnePage;

impl LoadRule for OnePage {
    fn take_in(
        &self,
        slots: &mut Slots,
        _entry: PlainEntry,
        pair: PlainPair,
    ) -> Result<(), AllocError> {
        let slot = slots
            .pairs
            .slot(pair.page)
            .unwrap_or_else(|| slots.free_slot());
        slots.pairs.drop_page(pair.page);
        slots.pairs.add(slot, pair)
    }
}

// All pairs of an entry share a slot.
#[derive(Clone, Copy)]
pub struct PartialSubblock;

impl LoadRule for PartialSubblock {
    fn take_in(
        &self,
        slots: &mut Slots,
        entry: PlainEntry,
        _pair: PlainPair,
    ) -> Result<(), AllocError> {
        slots.pairs.drop_pages_of(entry);
        let slot = slots.free_slot();
        slots.pairs.add_pairs_of(slot, entry)
    }
}

#[derive(Drop)]
pub struct SlotModel<R> {
    slots: Slots,
    rule: R,
}

impl<R: LoadRule> SlotModel<R> {
    pub fn new(heap: Global, rule: R) -> SlotModel<R>
        ensures { (vec_len result.slots.pairs.held ≡ 0) × (result.slots.hand ≡ 0) }
    {
        SlotModel {
            slots: Slots::new(heap),
            rule,
        }
    }
}

impl<R: LoadRule> Model for SlotModel<R> {
    ghost has = { λ m p. option_map (λ h. h.pair) (find (λ h. h.pair.page == p) m.slots.pairs.held.items) };

    fn probe(&mut self, page: u64) -> Result<Option<PlainPair>, AllocError> {
        Ok(self.slots.pairs.pair(page))
    }

    fn load(&mut self, entry: PlainEntry, page: u64) -> Result<(), AllocError> {
        match entry.pair(page) {
            Some(pair) => self.rule.take_in(&mut self.slots, entry, pair),
            None => Ok(()),
        }
    }

    fn purge(&mut self, page: u64) {
        self.slots.pairs.drop_page(page);
    }

    fn flush(&mut self) {
        self.slots.clear();
    }
}

// Written out again, though `TwoLevelTlb` makes the same calls: a model shares no code with what it is compared with.
#[derive(Drop)]
pub struct TwoLevelModel<M, N> {
    first: M,
    second: N,
}

impl<M: Model, N: Model> TwoLevelModel<M, N> {
    pub fn new(first: M, second: N) -> TwoLevelModel<M, N>
        ensures { (result.first ≡ first) × (result.second ≡ second) }
    {
        TwoLevelModel { first, second }
    }
}

impl<M: Model, N: Model> Model for TwoLevelModel<M, N> {
    ghost has = { λ m p. cond (is_some (M.has m.first p)) (M.has m.first p) (N.has m.second p) };

    fn probe(&mut self, page: u64) -> Result<Option<PlainPair>, AllocError> {
        if let Some(pair) = self.first.probe(page)? {
            return Ok(Some(pair));
        }
        let answer = self.second.probe(page)?;
        if let Some(pair) = answer {
            self.first.load(PlainEntry::from(pair), page)?;
        }
        Ok(answer)
    }

    fn load(&mut self, entry: PlainEntry, page: u64) -> Result<(), AllocError> {
        self.first.load(entry, page)?;
        self.second.load(entry, page)
    }

    fn purge(&mut self, page: u64) {
        self.first.purge(page);
        self.second.purge(page);
    }

    fn flush(&mut self) {
        self.first.flush();
        self.second.flush();
    }
}
