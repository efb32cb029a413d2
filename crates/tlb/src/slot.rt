// What a filled slot of a TLB holds, whatever it is for.
ghost use Rattle.std.specs.Prelude.{◌≡◌};
ghost use Rattle.tlb.specs.Slots.{Holding, Dropping, Keeping, Becomes, SlotLaws};

use words::{Page, Translation};

pub trait Slot {
    // What the slot holds for each page.
    ghost held: { Holding Self };

    // What becomes of the slot when a page is dropped: it may be empty then.
    ghost dropped: { Dropping Self };

    // What is true of every row of such slots, besides that no page is held twice.
    ghost kept: { Keeping Self };

    fn answer(&self, page: Page) -> Option<Translation>
        ensures { result ≡ held self.now page.number };

    fn drop_page(slot: &mut Option<Self>, page: Page)
        ensures { Becomes (λ s u. dropped s page.number u) slot.old slot.new };

    ghost slot_laws: { SlotLaws held dropped kept };
}
