// The reserved groups, by the bucket of their block.
use crate::bit_set::BitSet;

#[derive(Drop)]
pub struct BlockIndex {
    pub(crate) buckets: [BitSet<4>; 64],
}

// The groups of a bucket that are still to come, the lowest first: those from a number on.
#[derive(Drop)]
pub struct Groups<'a> {
    pub(crate) bucket: &'a BitSet<4>,
    pub(crate) from: u32,
}
