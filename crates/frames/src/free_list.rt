// A free list of 4,096 frames: the frame that came in last goes out first.
ghost use Rattle.std.specs.Prelude.{◌≡◌, ℕ, ◌+◌, count_by};
ghost use Rattle.arrayvec.specs.ArrayVec.{array_vec_len};
ghost use Rattle.frames.specs.Lists.{occurs, due};

use crate::stock::Stock;
use arrayvec::ArrayVec;

// Frames are kept by the numbers of their places: a vector of places would be read through a map in each fact below, and no function has to
// test a bound again. The head of the list is its last element.
#[derive(Drop)]
pub struct FreeListAllocator {
    pub(crate) stock: Stock,
    pub(crate) list: ArrayVec<u16, 4096>,
    pub(crate) out: [bool; 4096],
    ghost total: { array_vec_len list + count_by (λ flag. flag) out ≡ 4096 },
    ghost once: { (i : ℕ) → occurs i list.items ≡ due out i },
}
