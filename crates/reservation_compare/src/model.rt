// What an allocator may answer. The models have no code of the allocators, and keep other things.
ghost use Rattle.std.specs.Prelude.{◌≡◌, IfOk};
ghost use Rattle.reservation_compare.specs.Models.{ModelMeaning};

use crate::event::Event;
use std::alloc::{AllocError, Global};

// How a page gets a frame, and the frames of which it gets one; none where the call is to be refused.
#[derive(Drop)]
pub struct Choices {
    pub event: Event,
    pub frames: Vec<u32>,
}

pub trait FrameModel {
    ghost meaning: { ModelMeaning Self };

    fn choices(&self, heap: Global, page: u64) -> Result<Choices, AllocError>
        ensures { IfOk result (λ c. meaning.allowed self.now page c.event c.frames.items) };

    // One of the frames went out for the page.
    fn take(&mut self, page: u64, frame: u32)
        ensures { meaning.taken self.old page frame self.new };

    fn is_out(&self, frame: u32) -> bool
        ensures { result ≡ meaning.out self.now frame };

    // A frame that was out came in.
    fn give(&mut self, frame: u32) -> Result<(), AllocError>
        ensures { IfOk result (λ _. meaning.given self.old frame self.new) };
}
