// Page reservation as a frame allocator.
ghost use Rattle.reservation.specs.Reservation.{reservation, NewReservation};
ghost use Rattle.std.proofs.Common.{rules};

use crate::age_order::AgeOrder;
use crate::bit_set::BitSet;
use crate::block_index::BlockIndex;
use crate::group::{Group, Usage};
use crate::reservation::ReservationAllocator;
use crate::spot::Spot;
use frames::{AllocateFault, FrameAllocator, FreeFault, Stock};
use words::{OffsetSet, Page};

impl ReservationAllocator {
    // The frames from 16 * group on, none out.
    pub fn new(group: u16) -> ReservationAllocator
        ensures { NewReservation group result }
    {
        let open = Group {
            usage: Usage::Open,
            out: OffsetSet { bits: 0 },
        };
        ReservationAllocator {
            stock: Stock::of_group(group),
            groups: [open; 256],
            open_groups: BitSet::full(),
            spare_groups: BitSet::empty(),
            index: BlockIndex::empty(),
            order: AgeOrder::empty(),
        }
    }
}

impl FrameAllocator for ReservationAllocator {
    ghost meaning = { reservation };

    ghost within = { Prim.search rules };

    ghost small = { Prim.search rules };

    fn allocate(&mut self, page: Page) -> Result<u32, AllocateFault> {
        let choice = self.choose(page).ok_or(AllocateFault::AllOut)?;
        Ok(self.take(page, choice))
    }

    fn free(&mut self, frame: u32) -> Result<(), FreeFault> {
        let place = self.stock.place(frame).ok_or(FreeFault::NotOut)?;
        let spot = Spot::from(place);
        if !self.is_out(spot) {
            return Err(FreeFault::NotOut);
        }
        self.bring_in(spot);
        Ok(())
    }
}
