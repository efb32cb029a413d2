// The pairs that a TLB holds as a plain list, each with the slot that holds it.
ghost use Rattle.std.specs.Prelude.{◌≡◌, ◌+◌, ◌≤◌, ◌==◌, not, filter, find, is_ok, if◌then◌else◌, vec_len};
ghost use Rattle.std.specs.Option.{option_map};

use crate::plain::{PlainEntry, PlainPair};
use std::alloc::{AllocError, Global};

#[derive(Clone, Copy)]
struct Held {
    slot: u8,
    pair: PlainPair,
}

#[derive(Drop)]
pub struct PairList {
    held: Vec<Held>,
}

impl PairList {
    pub fn new(heap: Global) -> PairList
        ensures { vec_len result.held ≡ 0 }
    {
        PairList {
            held: Vec::new(heap),
        }
    }

    fn find(&self, page: u64) -> Option<Held>
        ensures { result ≡ find (λ h. h.pair.page == page) self.now.held.items }
    {
        self.held
            .iter()
            .find(|held| held.pair.page == page)
            .copied()
    }

    pub fn pair(&self, page: u64) -> Option<PlainPair>
        ensures { result ≡ option_map (λ h. h.pair) (find (λ h. h.pair.page == page) self.now.held.items) }
    {
        Some(self.find(page)?.pair)
    }

    pub fn slot(&self, page: u64) -> Option<u8>
        ensures { result ≡ option_map (λ h. h.slot) (find (λ h. h.pair.page == page) self.now.held.items) }
    {
        Some(self.find(page)?.slot)
    }

    pub fn add(&mut self, slot: u8, pair: PlainPair) -> Result<(), AllocError>
        ensures { vec_len self.new.held ≡ (if is_ok result then vec_len self.old.held + 1 else vec_len self.old.held) }
    {
        self.held.push(Held { slot, pair })?;
        Ok(())
    }

    // Adds every pair of the entry.
    pub fn add_pairs_of(&mut self, slot: u8, entry: PlainEntry) -> Result<(), AllocError>
        ensures { vec_len self.old.held ≤ vec_len self.new.held }
    {
        let first = entry.page / 16 * 16;
        for page in first..=first + 15 {
            if let Some(pair) = entry.pair(page) {
                self.add(slot, pair)?;
            }
        }
        Ok(())
    }

    pub fn drop_page(&mut self, page: u64)
        ensures { self.new.held.items ≡ filter (λ h. not (h.pair.page == page)) self.old.held.items }
    {
        self.held.retain(|held| held.pair.page != page);
    }

    pub fn drop_slot(&mut self, slot: u8)
        ensures { self.new.held.items ≡ filter (λ h. not (h.slot == slot)) self.old.held.items }
    {
        self.held.retain(|held| held.slot != slot);
    }

    // Drops every page that the entry says something of.
    pub fn drop_pages_of(&mut self, entry: PlainEntry)
        ensures { vec_len self.new.held ≤ vec_len self.old.held }
    {
        self.held
            .retain(|held| entry.pair(held.pair.page).is_none());
    }

    pub fn clear(&mut self)
        ensures { vec_len self.new.held ≡ 0 }
    {
        self.held.clear();
    }
}
