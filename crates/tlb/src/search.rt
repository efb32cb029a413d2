// Probing, purging and the hand, over lent slots of any kind.
ghost use Rattle.std.specs.Prelude.{◌≡◌, ℕ, ◌<◌, ◌≤◌, None, length, slice_set, IfSome};
ghost use Rattle.tlb.specs.Meaning.{Lacks, Within, Answers};
ghost use Rattle.tlb.specs.Slots.{in_slot, Holds, holders, first_place, first_held, without_page, next_slot, Each, Becomes};

use crate::hand::Hand;
use crate::slot::Slot;
use words::{Page, Translation};

// An empty slot holds nothing.
fn in_slot<S: Slot>(slot: &Option<S>, page: Page) -> Option<Translation>
    ensures { result ≡ in_slot S.held slot.now page.number }
{
    slot.as_ref()?.answer(page)
}

// The first slot that holds the page.
pub fn place<S: Slot>(slots: &[Option<S>], page: Page) -> Option<usize>
    ensures first { result ≡ first_place (in_slot S.held) slots.now page.number }
    ensures within { IfSome result (λ k. k < length slots.now) }
{
    slots.iter().position(|slot| in_slot(slot, page).is_some())
}

// What the first slot that holds the page has for it.
pub fn find<S: Slot>(slots: &[Option<S>], page: Page) -> Option<Translation>
    ensures first { result ≡ first_held (in_slot S.held) slots.now page.number }
    ensures answer { Answers (Holds (in_slot S.held)) slots.now page.number result slots.now }
{
    slots.iter().find_map(|slot| in_slot(slot, page))
}

// Drops the page from every slot.
pub fn purge<S: Slot>(slots: &mut [Option<S>], page: Page)
    ensures exact { Each (Becomes (λ s u. S.dropped s page.number u)) slots.old slots.new }
    ensures pages { Each (λ s u. (q : ℕ) → in_slot S.held u q ≡ without_page (in_slot S.held s) page.number q) slots.old slots.new }
    ensures gone { Lacks (Holds (in_slot S.held)) slots.new page.number }
    ensures within { Within (Holds (in_slot S.held)) slots.old slots.new }
    ensures fewer { (q : ℕ) → holders (in_slot S.held) slots.new q ≤ holders (in_slot S.held) slots.old q }
{
    for slot in slots.iter_mut() {
        S::drop_page(slot, page);
    }
}

// Empties the slot at the hand, and moves the hand on; the place of that slot.
pub fn vacate<S: Slot + Drop>(slots: &mut [Option<S>; 64], hand: &mut Hand) -> usize
    ensures place { result ≡ hand.old.at }
    ensures emptied { slots.new ≡ slice_set slots.old result None }
    ensures moved { hand.new.at ≡ next_slot hand.old.at }
{
    let at = hand.at;
    slots[at] = None;
    hand.advance();
    at
}
