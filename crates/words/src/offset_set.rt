// Sets of the sixteen offsets of a block.
ghost use Rattle.std.specs.Prelude.{◌≡◌, ℕ, ◌^◌, ◌≤◌, false, not, ◌&&◌, ◌||◌, ◌==◌, MatchBool};
ghost use Rattle.words.specs.Layout.{bit, Meet};

use crate::address::Offset;

// One bit for each offset that is in the set, offset 0 in bit 0.
#[derive(Clone, Copy, PartialEq, Eq, Debug)]
pub struct OffsetSet {
    pub bits: u16,
}

// The set of one offset.
impl From<Offset> for OffsetSet {
    ghost from_gives = { λ offset set. set.bits ≡ 2 ^ offset.number };

    fn from(offset: Offset) -> OffsetSet {
        OffsetSet { bits: offset.bit() }
    }
}

impl OffsetSet {
    pub fn is_empty(self) -> bool
        ensures { result ≡ (self.bits == 0) }
    {
        self.bits == 0
    }

    pub fn has(self, offset: Offset) -> bool
        ensures { result ≡ bit self.bits offset.number }
    {
        (self.bits >> offset.number) % 2 == 1
    }

    // Whether some offset is in both sets.
    pub fn meets(self, other: OffsetSet) -> bool
        ensures { MatchBool result (Meet self.bits other.bits) (Meet self.bits other.bits → ⊥) }
    {
        self.bits & other.bits != 0
    }

    // The offsets of both sets.
    pub fn with(self, more: OffsetSet) -> OffsetSet
        ensures each { (k : ℕ) → bit result.bits k ≡ (bit self.bits k || bit more.bits k) }
        ensures some { more.bits ≤ result.bits }
    {
        OffsetSet {
            bits: self.bits | more.bits,
        }
    }

    // The offsets that are not in the other set.
    pub fn without(self, gone: OffsetSet) -> OffsetSet
        ensures each { (k : ℕ) → bit result.bits k ≡ (bit self.bits k && not (bit gone.bits k)) }
        ensures none { result.bits ≡ 0 → (k : ℕ) → (bit self.bits k && not (bit gone.bits k)) ≡ false }
    {
        OffsetSet {
            bits: self.bits & !gone.bits,
        }
    }
}
