// The order in which groups were reserved.
ghost use Rattle.std.specs.Prelude.{◌≡◌, ℕ, ◌<◌, ◌≤◌, true, Some, None, slice_index, slice_index_or};
ghost use Rattle.arrayvec.specs.ArrayVec.{array_vec_len};
ghost use Rattle.reservation.specs.Sets.{has};

use crate::bit_set::BitSet;
use arrayvec::ArrayVec;

// By rank: the group that has it, and, as a set whose first is found in a few steps, whether that group waits.
// A group gets the next rank when it is reserved, so ranks rise from the oldest to the youngest. There are more ranks than
// groups; when all are used, the groups that are still there move down. A group waits when it has a frame to give.
#[derive(Drop)]
pub struct AgeOrder {
    pub(crate) ranks: [Option<u16>; 256],
    pub(crate) groups: ArrayVec<u8, 512>,
    pub(crate) waiting: BitSet<8>,
    // what the capacity says, for the facts that cite it
    ghost few: { array_vec_len groups ≤ 512 },
    ghost ranked: { (g p : ℕ) → slice_index_or ranks g None ≡ Some p → (p < array_vec_len groups) × (slice_index groups.items p ≡ g) },
    ghost waits: { (p : ℕ) → has waiting p ≡ true → slice_index_or ranks (slice_index groups.items p) None ≡ Some p },
}
