// The free list as a frame allocator.
ghost use Rattle.frames.specs.FreeList.{free_list, NewList};
ghost use Rattle.std.proofs.Common.{rules};

use crate::allocator::FrameAllocator;
use crate::fault::{AllocateFault, FreeFault};
use crate::free_list::FreeListAllocator;
use crate::stock::{Place, Stock};
use arrayvec::ArrayVec;
use std::array;
use words::Page;

impl FreeListAllocator {
    // The frames from 16 * group on, none out.
    pub fn new(group: u16) -> FreeListAllocator
        ensures { NewList group result }
    {
        FreeListAllocator {
            stock: Stock::of_group(group),
            list: ArrayVec::from(array::from_fn(|i| 4095 - i as u16)),
            out: [false; 4096],
        }
    }
}

impl FrameAllocator for FreeListAllocator {
    ghost meaning = { free_list };

    ghost within = { Prim.search rules };

    ghost small = { Prim.search rules };

    // The page does not matter.
    fn allocate(&mut self, _page: Page) -> Result<u32, AllocateFault> {
        let number = self.list.pop().ok_or(AllocateFault::AllOut)?;
        self.out[usize::from(number)] = true;
        Ok(self.stock.frame(Place { number }))
    }

    fn free(&mut self, frame: u32) -> Result<(), FreeFault> {
        let place = self.stock.place(frame).ok_or(FreeFault::NotOut)?;
        if !self.out[usize::from(place.number)] {
            return Err(FreeFault::NotOut);
        }
        self.out[usize::from(place.number)] = false;
        self.list.push(place.number);
        Ok(())
    }
}
