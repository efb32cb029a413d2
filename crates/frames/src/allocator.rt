// What a frame allocator does, whatever it is made of.
ghost use Rattle.std.specs.Prelude.{◌≡◌, ℕ, ◌^◌, ◌<◌, true};
ghost use Rattle.frames.specs.Meaning.{FramesMeaning, Takes, Gives};

use crate::fault::{AllocateFault, FreeFault};
use words::Page;

pub trait FrameAllocator {
    ghost meaning: { FramesMeaning Self };

    // A frame for the page; refused when every frame is out. Refused or not, the stock stays, and a refused call leaves out what was out.
    fn allocate(&mut self, page: Page) -> Result<u32, AllocateFault>
        ensures step { meaning.allocated self.old page.number result self.new }
        ensures takes { Takes meaning.stock meaning.out self.old result self.new }
        ensures stock { meaning.stock self.new ≡ meaning.stock self.old };

    // The frame comes back in; refused when it is not out.
    fn free(&mut self, frame: u32) -> Result<(), FreeFault>
        ensures step { meaning.freed self.old frame result self.new }
        ensures gives { Gives meaning.out self.old frame result self.new }
        ensures stock { meaning.stock self.new ≡ meaning.stock self.old };

    ghost within: { (s : Self) (f : ℕ) → meaning.out s f ≡ true → meaning.stock s f ≡ true };

    ghost small: { (s : Self) (f : ℕ) → meaning.stock s f ≡ true → f < 2 ^ 28 };
}
