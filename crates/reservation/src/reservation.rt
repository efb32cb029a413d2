// 4,096 frames in 256 groups of sixteen.
ghost use Rattle.std.specs.Prelude.{◌≡◌, ℕ, true, length, ◌==◌};
ghost use Rattle.reservation.specs.Ages.{member, waits};
ghost use Rattle.reservation.specs.Groups.{nth_group, is_open, is_reserved, is_spare, waits_in, bucket_use, same_block};
ghost use Rattle.reservation.specs.Index.{in_bucket};
ghost use Rattle.reservation.specs.Sets.{has};

use crate::age_order::AgeOrder;
use crate::bit_set::BitSet;
use crate::block_index::BlockIndex;
use crate::group::Group;
use frames::Stock;

// The groups say all there is but the order of reservation. The open groups, the broken ones with a frame in, and the reserved
// ones by bucket are kept beside them, so that none has to be looked for group by group.
#[derive(Drop)]
pub struct ReservationAllocator {
    pub(crate) stock: Stock,
    pub(crate) groups: [Group; 256],
    pub(crate) open_groups: BitSet<4>,
    pub(crate) spare_groups: BitSet<4>,
    pub(crate) index: BlockIndex,
    pub(crate) order: AgeOrder,
    ghost all: { length groups ≡ 256 },
    // a group is open exactly when no frame of it is out
    ghost used: { (g : ℕ) → is_open (nth_group groups g) ≡ ((nth_group groups g).out.bits == 0) },
    // at most one group is reserved for a block
    ghost single: { (g h : ℕ) → same_block (nth_group groups g).usage (nth_group groups h).usage ≡ true → g ≡ h },
    ghost opens: { (g : ℕ) → has open_groups g ≡ is_open (nth_group groups g) },
    ghost spares: { (g : ℕ) → has spare_groups g ≡ is_spare (nth_group groups g) },
    ghost listed: { (h g : ℕ) → in_bucket index h g ≡ bucket_use h (nth_group groups g).usage },
    ghost ordered: { (g : ℕ) → member order g ≡ is_reserved (nth_group groups g) },
    ghost waiting: { (g : ℕ) → waits order g ≡ waits_in (nth_group groups g) },
}
