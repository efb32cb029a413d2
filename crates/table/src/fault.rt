// Why a call is refused.
ghost use Rattle.std.specs.Prelude.{◌≡◌, Some};
ghost use Rattle.table.specs.Faults.{map_number, protect_number, not_mapped_number, map_reason, protect_reason, not_mapped_reason, MapRoom};

use blocks::NoRoom;
use std::error::Error;
use std::fmt;

// Why a page is not mapped to a translation.
#[derive(Clone, Copy, PartialEq, Eq, Debug)]
pub enum MapFault {
    // The page is mapped already.
    Mapped,
    // The block has no mapped page yet, and all nodes are linked.
    NoNode,
    // No compact word can have the block's pages then, it has no row, and all rows are in use.
    NoRow,
}

// Why a page keeps its attributes.
#[derive(Clone, Copy, PartialEq, Eq, Debug)]
pub enum ProtectFault {
    // Attributes over 4,095.
    BadAttributes,
    NotMapped,
    // As in `MapFault`.
    NoRow,
}

// The page is not mapped.
#[derive(Clone, Copy, PartialEq, Eq, Debug)]
pub struct NotMapped;

impl From<MapFault> for u64 {
    ghost from_gives = { λ fault n. n ≡ map_number fault };

    fn from(fault: MapFault) -> u64 {
        match fault {
            MapFault::Mapped => 1,
            MapFault::NoNode => 7,
            MapFault::NoRow => 8,
        }
    }
}

impl From<ProtectFault> for u64 {
    ghost from_gives = { λ fault n. n ≡ protect_number fault };

    fn from(fault: ProtectFault) -> u64 {
        match fault {
            ProtectFault::BadAttributes => 5,
            ProtectFault::NotMapped => 9,
            ProtectFault::NoRow => 8,
        }
    }
}

impl From<NotMapped> for u64 {
    ghost from_gives = { λ _ n. n ≡ not_mapped_number };

    fn from(_fault: NotMapped) -> u64 {
        9
    }
}

impl From<NoRoom> for MapFault {
    ghost from_gives = { MapRoom };

    fn from(fault: NoRoom) -> MapFault {
        match fault {
            NoRoom::NoNode => MapFault::NoNode,
            NoRoom::NoRow => MapFault::NoRow,
        }
    }
}

impl fmt::Display for MapFault {
    ghost output = { λ fault. Some (map_reason fault) };

    fn fmt<W: fmt::Write>(&self, f: &mut fmt::Formatter<W>) -> fmt::Result {
        f.write_str(match self {
            MapFault::Mapped => "the page is mapped",
            MapFault::NoNode => "all nodes are linked",
            MapFault::NoRow => "all rows are in use",
        })
    }
}

impl fmt::Display for ProtectFault {
    ghost output = { λ fault. Some (protect_reason fault) };

    fn fmt<W: fmt::Write>(&self, f: &mut fmt::Formatter<W>) -> fmt::Result {
        f.write_str(match self {
            ProtectFault::BadAttributes => "attributes over 4095",
            ProtectFault::NotMapped => "the page is not mapped",
            ProtectFault::NoRow => "all rows are in use",
        })
    }
}

impl fmt::Display for NotMapped {
    ghost output = { λ _. Some not_mapped_reason };

    fn fmt<W: fmt::Write>(&self, f: &mut fmt::Formatter<W>) -> fmt::Result {
        f.write_str("the page is not mapped")
    }
}

impl Error for MapFault {}

impl Error for ProtectFault {}

impl Error for NotMapped {}
