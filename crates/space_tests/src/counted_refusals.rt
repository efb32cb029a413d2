// A frame allocator that counts its refusals.
ghost use Rattle.space_tests.specs.CountedRefusals.{counted_refusals};
ghost use Rattle.std.proofs.Common.{rules};

use frames::{AllocateFault, FrameAllocator, FreeFault};
use words::Page;

#[derive(Drop)]
pub struct CountedRefusals<F> {
    pub frames: F,
    pub refusals: u32,
}

impl<F: FrameAllocator> FrameAllocator for CountedRefusals<F> {
    ghost meaning = { counted_refusals F.FrameAllocator.meaning };

    ghost within = { λ s f out. F.FrameAllocator.within s.frames f out };

    ghost small = { λ s f own. F.FrameAllocator.small s.frames f own };

    fn allocate(&mut self, page: Page) -> Result<u32, AllocateFault> {
        let answer = self.frames.allocate(page);
        if answer.is_err() {
            self.refusals = self.refusals.saturating_add(1);
        }
        answer
    }

    fn free(&mut self, frame: u32) -> Result<(), FreeFault> {
        let answer = self.frames.free(frame);
        if answer.is_err() {
            self.refusals = self.refusals.saturating_add(1);
        }
        answer
    }
}
