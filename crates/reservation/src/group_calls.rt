// What a group has in, and what is left when a frame goes out or comes in.
ghost use Rattle.std.specs.Prelude.{◌≡◌, true, false, ◌==◌};
ghost use Rattle.words.specs.Layout.{bit};
ghost use Rattle.reservation.specs.Groups.{is_open, is_reserved, is_spare, has_in, turn_of, block_use, In, OutAt, Returned};

use crate::group::{Group, Usage};
use words::{Block, Offset, OffsetSet};

impl Group {
    pub(crate) fn is_open(self) -> bool
        ensures { result ≡ is_open self }
    {
        matches!(self.usage, Usage::Open)
    }

    pub(crate) fn is_reserved(self) -> bool
        ensures { result ≡ is_reserved self }
    {
        matches!(self.usage, Usage::Reserved(_))
    }

    pub(crate) fn is_reserved_for(self, block: Block) -> bool
        ensures { result ≡ block_use block.number self.usage }
    {
        self.usage == Usage::Reserved(block)
    }

    // Whether any page can have a frame of the group.
    pub(crate) fn is_spare(self) -> bool
        ensures { result ≡ is_spare self }
    {
        matches!(self.usage, Usage::Broken) && self.has_in()
    }

    pub(crate) fn has_in(self) -> bool
        ensures { result ≡ has_in self }
    {
        self.out.bits != 0xffff
    }

    // Whether a reserved group waits for its turn to give a frame.
    pub(crate) fn turn(self) -> Option<bool>
        ensures { result ≡ turn_of self }
    {
        self.is_reserved().then_some(self.has_in())
    }

    pub(crate) fn is_out(self, offset: Offset) -> bool
        ensures { result ≡ bit self.out.bits offset.number }
    {
        self.out.has(offset)
    }

    // The lowest offset whose frame is in.
    pub(crate) fn lowest_in(self) -> Offset
        requires { has_in self ≡ true }
        ensures { In self result.number }
    {
        Offset {
            number: self.out.bits.trailing_ones() as u8,
        }
    }

    // The group, used otherwise, with one frame more out.
    pub(crate) fn taken(self, offset: Offset, usage: Usage) -> Group
        ensures usage { result.usage ≡ usage }
        ensures out { OutAt self offset.number true result }
        ensures some { (result.out.bits == 0) ≡ false }
    {
        Group {
            usage,
            out: self.out.with(OffsetSet::from(offset)),
        }
    }

    // The group with one frame more in.
    pub(crate) fn returned(self, offset: Offset) -> Group
        ensures { Returned self offset.number result }
    {
        let out = self.out.without(OffsetSet::from(offset));
        let usage = if out.is_empty() {
            Usage::Open
        } else {
            self.usage
        };
        Group { usage, out }
    }
}
