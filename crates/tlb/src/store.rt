// Where an entry is stored in a row of slots.
ghost use Rattle.tlb.specs.Slotted.{Stored};

use crate::enter::Enter;
use crate::entry::Entry;
use crate::hand::Hand;
use crate::search::vacate;
use words::{Page, Translation};

// Stores the entry in the slot that is found for it, or else in the one at the hand.
pub(crate) fn store<S: Enter>(
    slots: &mut [Option<S>; 64],
    hand: &mut Hand,
    entry: Entry,
    page: Page,
    translation: Translation,
)
    ensures { Stored S.room S.taken slots.old hand.old entry page.number translation slots.new hand.new }
{
    let at = match S::make_room(slots, entry, page) {
        Some(at) => at,
        None => vacate(slots, hand),
    };
    let row: &mut [Option<S>] = slots;
    S::take_in(&mut row[at], entry, page, translation);
}
