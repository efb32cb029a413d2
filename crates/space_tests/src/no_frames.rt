// A frame allocator of an empty stock.
ghost use Rattle.space_tests.specs.NoFrames.{no_frames};
ghost use Rattle.std.proofs.Common.{rules};

use frames::{AllocateFault, FrameAllocator, FreeFault};
use words::Page;

#[derive(Drop)]
pub struct NoFrames;

impl FrameAllocator for NoFrames {
    ghost meaning = { no_frames };

    ghost within = { Prim.search rules };

    ghost small = { Prim.search rules };

    fn allocate(&mut self, _page: Page) -> Result<u32, AllocateFault> {
        Err(AllocateFault::AllOut)
    }

    fn free(&mut self, _frame: u32) -> Result<(), FreeFault> {
        Err(FreeFault::NotOut)
    }
}
