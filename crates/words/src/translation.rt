// What a page is mapped to.
ghost use Rattle.std.specs.Prelude.{◌≡◌, ◌+◌, ◌*◌, ◌%◌, ◌^◌, ◌<◌, ◌==◌};
ghost use Rattle.words.specs.Access.{allowed};
ghost use Rattle.words.specs.Layout.{offset_of, in_range};
ghost use Rattle.words.specs.Made.{Made};

use crate::access::Access;
use crate::address::Offset;

// A frame of 4,096 bytes, and twelve attribute bits: bit 0 read, bit 1 write, bit 2 execute; the other nine are only carried.
#[derive(Clone, Copy, PartialEq, Eq, Debug)]
pub struct Translation {
    pub frame: u32,
    pub attributes: u16,
    ghost frames: { frame < 2 ^ 28 },
    ghost bits: { attributes < 2 ^ 12 },
}

impl Translation {
    // None where the frame is 2^28 or more, or the attributes are 4,096 or more.
    pub fn new(frame: u32, attributes: u16) -> Option<Translation>
        ensures { Made result (in_range frame attributes) (λ t. (t.frame ≡ frame) × (t.attributes ≡ attributes)) }
    {
        if frame >= 0x1000_0000 || attributes >= 0x1000 {
            return None;
        }
        Some(Translation { frame, attributes })
    }

    // Each access divides by a constant, which is a shift; by the number of the access it would be a division.
    pub fn allows(self, access: Access) -> bool
        ensures { result ≡ allowed self.attributes access }
    {
        match access {
            Access::Read => self.attributes % 2 == 1,
            Access::Write => self.attributes / 2 % 2 == 1,
            Access::Execute => self.attributes / 4 % 2 == 1,
        }
    }

    // A page is properly placed when its frame has the page's offset in a frame block of sixteen.
    pub fn properly_placed(self, offset: Offset) -> bool
        ensures { result ≡ (offset_of self.frame == offset.number) }
    {
        self.frame % 16 == u32::from(offset.number)
    }

    // The physical address that a virtual address of the page stands for.
    pub fn physical(self, address: u64) -> u64
        ensures { result ≡ self.frame * 4096 + address % 4096 }
    {
        u64::from(self.frame) * 4096 + address % 4096
    }
}
