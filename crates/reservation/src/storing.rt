// Groups are written, with the sets that are kept of them.
ghost use Rattle.std.specs.Prelude.{◌≡◌, ℕ, true, false, ◌==◌};
ghost use Rattle.words.specs.Layout.{bit};
ghost use Rattle.words.specs.Points.{at};
ghost use Rattle.reservation.specs.Ages.{Updated};
ghost use Rattle.reservation.specs.Groups.{is_open, turn_of, same_block};
ghost use Rattle.reservation.specs.Reservation.{group_of, group_stock, group_out, frame_at, UsedAs, Chosen, Taken, CameIn};

use crate::group::{Choice, Group, Step, Usage};
use crate::reservation::ReservationAllocator;
use crate::spot::Spot;
use frames::Place;
use words::Page;

impl Step {
    // What a group is used for after the step.
    fn usage(self, page: Page) -> Usage
        ensures { UsedAs page.number self result }
    {
        match self {
            Step::Kept | Step::Reserves => Usage::Reserved(page.block()),
            Step::Spare | Step::Breaks | Step::BreaksOldest => Usage::Broken,
        }
    }
}

impl ReservationAllocator {
    // Writes a group.
    pub(crate) fn store(&mut self, number: u8, group: Group)
        requires used { is_open group ≡ (group.out.bits == 0) }
        requires single { (h : ℕ) → same_block group.usage (group_of self.old h).usage ≡ true → h ≡ number }
        ensures stock { self.new.stock ≡ self.old.stock }
        ensures stored { group_of self.new ≡ at (group_of self.old) number group }
        ensures order { Updated self.old.order number (turn_of group) self.new.order }
    {
        let index = usize::from(number);
        let old = self.groups[index];
        self.groups[index] = group;
        self.open_groups.put(index, group.is_open());
        self.spare_groups.put(index, group.is_spare());
        self.index.update(number, old.usage, group.usage);
        self.order.update(number, group.turn());
    }

    // Carries a choice out, and gives its frame.
    pub(crate) fn take(&mut self, page: Page, choice: Choice) -> u32
        requires { Chosen self.old page.number choice }
        ensures taken { Taken self.old page.number choice result self.new }
        ensures stock { group_stock self.old result ≡ true }
        ensures within { group_out self.old result ≡ false }
        ensures out { group_out self.new ≡ at (group_out self.old) result true }
        ensures same { group_stock self.new ≡ group_stock self.old }
    {
        let spot = choice.spot;
        let group = self.groups[usize::from(spot.group)];
        let usage = choice.step.usage(page);
        self.store(spot.group, group.taken(spot.offset, usage));
        self.stock.frame(Place::from(spot))
    }

    // Brings in a frame that is out.
    pub(crate) fn bring_in(&mut self, spot: Spot)
        requires { bit (group_of self.old spot.group).out.bits spot.offset.number ≡ true }
        ensures came { CameIn self.old spot.group spot.offset.number self.new }
        ensures out { group_out self.new ≡ at (group_out self.old) (frame_at self.old spot.group spot.offset.number) false }
        ensures same { group_stock self.new ≡ group_stock self.old }
    {
        let group = self.groups[usize::from(spot.group)];
        self.store(spot.group, group.returned(spot.offset));
    }
}
