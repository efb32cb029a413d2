// How an entry comes into a row of slots.
ghost use Rattle.std.specs.Prelude.{◌<◌, length, IfSome};
ghost use Rattle.tlb.specs.Slots.{MakesRoom, TakesIn, EnterLaws};

use crate::entry::Entry;
use crate::slot::Slot;
use words::{Page, Translation};

pub trait Enter: Slot + Copy {
    // The row before and after room is made for an entry that is loaded for a page, and between them the place that was found for it,
    // if one was.
    ghost room: { MakesRoom Self };

    // The slot that takes the entry in, before and after.
    ghost taken: { TakesIn Self };

    fn make_room(slots: &mut [Option<Self>], entry: Entry, page: Page) -> Option<usize>
        ensures step { room slots.old entry page.number result slots.new }
        ensures within { IfSome result (λ k. k < length slots.new) };

    // The entry says this translation of the page.
    fn take_in(slot: &mut Option<Self>, entry: Entry, page: Page, translation: Translation)
        ensures { taken slot.old entry page.number translation slot.new };

    ghost enter_laws: { EnterLaws Self.held Self.kept room taken };
}
