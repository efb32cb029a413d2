// Groups go into buckets and out of them, and are looked up there.
ghost use Rattle.std.specs.Prelude.{◌≡◌, ℕ, true, false, MatchOption};
ghost use Rattle.std.specs.Iterator.{YieldsFirst, item_count};
ghost use Rattle.words.specs.Layout.{bucket_of};
ghost use Rattle.words.specs.Points.{at};
ghost use Rattle.reservation.specs.Groups.{bucket_use};
ghost use Rattle.reservation.specs.Index.{in_bucket, groups_left, ListedAs, OthersListed, put_in};
ghost use Rattle.reservation.specs.Sets.{has, FirstFrom, NoneFrom};

use crate::bit_set::BitSet;
use crate::block_index::{BlockIndex, Groups};
use crate::group::Usage;
use words::Block;

// The lowest group of a set from the given number on.
pub(crate) fn lowest_from(groups: &BitSet<4>, from: usize) -> Option<u8>
    ensures { MatchOption result (NoneFrom (has groups.now) from) (λ g. FirstFrom (has groups.now) from g) }
{
    Some(groups.first_from(from)? as u8)
}

impl BlockIndex {
    pub(crate) fn empty() -> BlockIndex
        ensures { (h k : ℕ) → in_bucket result h k ≡ false }
    {
        BlockIndex {
            buckets: [BitSet::empty(); 64],
        }
    }

    // Takes a group that was used in one way over to another.
    pub(crate) fn update(&mut self, group: u8, old: Usage, new: Usage)
        requires { ListedAs self.old group old }
        ensures own { ListedAs self.new group new }
        ensures others { OthersListed self.old group self.new }
    {
        self.put(old, group, false);
        self.put(new, group, true);
    }

    // Takes the group into the bucket of the block that it is reserved for, or out; one method for both, as the set itself has.
    fn put(&mut self, usage: Usage, group: u8, on: bool)
        ensures { (h k : ℕ) → in_bucket self.new h k ≡ put_in (bucket_use h usage) (in_bucket self.old h) group on k }
    {
        if let Usage::Reserved(block) = usage {
            self.buckets[block.bucket()].put(usize::from(group), on);
        }
    }

    // The groups of a block's bucket, all of them still to come.
    pub(crate) fn groups(&self, block: Block) -> Groups<'_>
        ensures bucket { has result.bucket.now ≡ in_bucket self.now (bucket_of block.number) }
        ensures all { result.from ≡ 0 }
    {
        Groups {
            bucket: &self.buckets[block.bucket()],
            from: 0,
        }
    }
}

impl<'a> Iterator for Groups<'a> {
    type Item = u8;

    ghost next_gives = { YieldsFirst groups_left };

    ghost remaining = { item_count groups_left };

    #[tactic(auto, using(crate::proofs::Members::passing_none, crate::proofs::Members::next_left))]
    fn next(&mut self) -> Option<u8> {
        let group = lowest_from(self.bucket, self.from as usize)?;
        self.from = u32::from(group) + 1;
        Some(group)
    }
}
