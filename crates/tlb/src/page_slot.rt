// A slot for one page.
ghost use Rattle.std.specs.Prelude.{true, IsSomeAnd};
ghost use Rattle.tlb.specs.PageSlots.{page_held, page_dropped, IsHeld, PageRoom};
ghost use Rattle.tlb.specs.PageLaws;

use crate::enter::Enter;
use crate::entry::Entry;
use crate::search::place;
use crate::slot::Slot;
use words::{Page, Translation};

#[derive(Clone, Copy)]
pub struct PageSlot {
    pub page: Page,
    pub translation: Translation,
}

impl Slot for PageSlot {
    ghost held = { page_held };

    ghost dropped = { page_dropped };

    ghost kept = { λ xs. true };

    ghost slot_laws = { PageLaws.drops };

    fn answer(&self, page: Page) -> Option<Translation> {
        (self.page == page).then_some(self.translation)
    }

    fn drop_page(slot: &mut Option<PageSlot>, page: Page) {
        if slot.as_ref().is_some_and(|held| held.page == page) {
            *slot = None;
        }
    }
}

impl Enter for PageSlot {
    ghost room = { λ xs e. PageRoom xs };

    ghost taken = { λ o e p t n. IsSomeAnd n (IsHeld p t) };

    ghost enter_laws = { PageLaws.enters };

    // The slot that holds the page.
    fn make_room(slots: &mut [Option<PageSlot>], _: Entry, page: Page) -> Option<usize> {
        place(slots, page)
    }

    fn take_in(slot: &mut Option<PageSlot>, _: Entry, page: Page, translation: Translation) {
        *slot = Some(PageSlot { page, translation });
    }
}
