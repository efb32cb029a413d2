// Why a page cannot be mapped.
ghost use Rattle.std.specs.Prelude.{◌≡◌, Some};
ghost use Rattle.blocks.specs.Faults.{room_number, room_reason};
ghost use Rattle.blocks.specs.declared.fault.NoRoom.TheVariants as room;

use chains::NoNode;
use std::error::Error;
use std::fmt;

#[derive(Clone, Copy, PartialEq, Eq, Debug)]
pub enum NoRoom {
    // The block has no mapped page yet, and all nodes are linked.
    NoNode,
    // No compact word can have the block's pages then, it has no row, and all rows are in use.
    NoRow,
}

impl From<NoRoom> for u64 {
    ghost from_gives = { λ fault n. n ≡ room_number fault };

    fn from(fault: NoRoom) -> u64 {
        match fault {
            NoRoom::NoNode => 7,
            NoRoom::NoRow => 8,
        }
    }
}

impl From<NoNode> for NoRoom {
    ghost from_gives = { λ _ fault. fault ≡ room.NoNode };

    fn from(_fault: NoNode) -> NoRoom {
        NoRoom::NoNode
    }
}

impl fmt::Display for NoRoom {
    ghost output = { λ fault. Some (room_reason fault) };

    fn fmt<W: fmt::Write>(&self, f: &mut fmt::Formatter<W>) -> fmt::Result {
        f.write_str(match self {
            NoRoom::NoNode => "all nodes are linked",
            NoRoom::NoRow => "all rows are in use",
        })
    }
}

impl Error for NoRoom {}
