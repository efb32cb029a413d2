// A slot for one page that is moved and not copied.
ghost use Rattle.std.specs.Prelude.{true};
ghost use Rattle.tlb_tests.specs.Owned.{owned_held, owned_dropped};
ghost use Rattle.tlb_tests.specs.OwnedLaws;

use tlb::Slot;
use words::{Page, Translation};

#[derive(Drop)]
pub struct OwnedSlot {
    pub page: Page,
    pub translation: Translation,
}

impl Slot for OwnedSlot {
    ghost held = { owned_held };

    ghost dropped = { owned_dropped };

    ghost kept = { λ xs. true };

    ghost slot_laws = { OwnedLaws.drops };

    fn answer(&self, page: Page) -> Option<Translation> {
        (self.page == page).then_some(self.translation)
    }

    fn drop_page(slot: &mut Option<OwnedSlot>, page: Page) {
        if slot.as_ref().is_some_and(|held| held.page == page) {
            *slot = None;
        }
    }
}
