// Which frame a page gets.
ghost use Rattle.std.specs.Prelude.{◌≡◌, ℕ, true, false, IfSome, MatchOption};
ghost use Rattle.words.specs.Layout.{bit};
ghost use Rattle.reservation.specs.Groups.{is_broken, waits_in, has_in, block_use, In};
ghost use Rattle.reservation.specs.Reservation.{group_of, NoGroup, NoOpen, LowestOpen, NoSpare, NoneIn, OnlyFor, Longest, NoOwn, Chosen};

use crate::block_index_calls::lowest_from;
use crate::group::{Choice, Step};
use crate::reservation::ReservationAllocator;
use crate::spot::Spot;
use words::{Block, Page};

impl ReservationAllocator {
    pub(crate) fn is_out(&self, spot: Spot) -> bool
        ensures { result ≡ bit (group_of self.now spot.group).out.bits spot.offset.number }
    {
        self.groups[usize::from(spot.group)].is_out(spot.offset)
    }

    // The frame that the first step with one gives.
    pub(crate) fn choose(&self, page: Page) -> Option<Choice>
        ensures { MatchOption result (NoneIn self.now) (λ c. Chosen self.now page.number c) }
    {
        self.choose_own(page).or_else(|| self.choose_any(page))
    }

    // The frame at the page's offset, in the group that is reserved for its block or that can be.
    #[tactic(auto, using(crate::proofs::Grouped::kept_chosen))]
    fn choose_own(&self, page: Page) -> Option<Choice>
        ensures { MatchOption result (NoOwn self.now page.number) (λ c. Chosen self.now page.number c) }
    {
        let offset = page.offset();
        if let Some(group) = self.group_for(page.block()) {
            let spot = Spot { group, offset };
            let step = Step::Kept;
            return (!self.is_out(spot)).then_some(Choice { step, spot });
        }
        let group = self.lowest_open()?;
        Some(Choice {
            step: Step::Reserves,
            spot: Spot { group, offset },
        })
    }

    // Any frame that is in.
    fn choose_any(&self, page: Page) -> Option<Choice>
        requires { NoOwn self.now page.number }
        ensures { MatchOption result (NoneIn self.now) (λ c. Chosen self.now page.number c) }
    {
        if let Some(group) = self.lowest_spare() {
            return Some(self.any_in(group, Step::Spare));
        }
        if let Some(group) = self.lowest_open() {
            return Some(self.any_in(group, Step::Breaks));
        }
        let group = self.oldest()?;
        Some(self.any_in(group, Step::BreaksOldest))
    }

    // The group that is reserved for the block.
    fn group_for(&self, block: Block) -> Option<u8>
        ensures { MatchOption result (NoGroup self.now block.number) (λ g. OnlyFor self.now block.number g) }
    {
        self.index
            .groups(block)
            .find(|group| self.is_reserved_for(*group, block))
    }

    fn is_reserved_for(&self, group: u8, block: Block) -> bool
        ensures { result ≡ block_use block.number (group_of self.now group).usage }
    {
        self.groups[usize::from(group)].is_reserved_for(block)
    }

    #[tactic(auto, using(crate::proofs::Grouped::open_found, crate::proofs::Grouped::open_whole))]
    fn lowest_open(&self) -> Option<u8>
        ensures first { MatchOption result (NoOpen self.now) (λ g. LowestOpen self.now g) }
        ensures whole { IfSome result (λ g. (group_of self.now g).out.bits ≡ 0) }
    {
        lowest_from(&self.open_groups, 0)
    }

    // A broken group with a frame in.
    #[tactic(auto, using(crate::proofs::Grouped::spare_found))]
    fn lowest_spare(&self) -> Option<u8>
        ensures { MatchOption result (NoSpare self.now) (λ g. (is_broken (group_of self.now g) ≡ true) × (has_in (group_of self.now g) ≡ true)) }
    {
        lowest_from(&self.spare_groups, 0)
    }

    // The group reserved longest ago that has a frame in.
    #[tactic(auto, using(crate::proofs::Grouped::oldest_found))]
    fn oldest(&self) -> Option<u8>
        ensures first { MatchOption result ((g : ℕ) → waits_in (group_of self.now g) ≡ false) (λ g. Longest self.now g) }
        ensures some { IfSome result (λ g. has_in (group_of self.now g) ≡ true) }
    {
        self.order.oldest()
    }

    // The lowest frame that is in, of a group that has one, by a step.
    fn any_in(&self, group: u8, step: Step) -> Choice
        requires { has_in (group_of self.now group) ≡ true }
        ensures step { result.step ≡ step }
        ensures group { result.spot.group ≡ group }
        ensures within { In (group_of self.now group) result.spot.offset.number }
    {
        let offset = self.groups[usize::from(group)].lowest_in();
        Choice {
            step,
            spot: Spot { group, offset },
        }
    }
}
