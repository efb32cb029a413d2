// Why a call of an address space is refused. `table::ProtectFault` is the fault of a protect, `table::NotMapped` that of a walk.
ghost use Rattle.std.specs.Prelude.{◌≡◌, Some};
ghost use Rattle.law.specs.Faults.{begin_number, settle_number, abandon_number, release_number, touch_number, begin_reason, settle_reason, abandon_reason, release_reason, touch_reason, BeginFromAdd, SettleFromMap};
ghost use Rattle.law.specs.declared.fault.BeginFault.TheVariants.{NoFrame};
ghost use Rattle.law.specs.declared.fault.SettleFault.TheVariants as settle;
ghost use Rattle.law.specs.declared.fault.AbandonFault.TheVariants as abandon;
ghost use Rattle.law.specs.declared.fault.ReleaseFault.TheVariants as release;
ghost use Rattle.law.specs.declared.fault.TouchFault.TheVariants as touch;

use fills::{AddFault, NoFill};
use frames::{AllocateFault, FreeFault};
use std::error::Error;
use std::fmt;
use table::{MapFault, NotMapped};
use words::BadNumber;

// Why no fill is begun.
#[derive(Clone, Copy, PartialEq, Eq, Debug)]
pub enum BeginFault {
    // The page is mapped.
    Mapped,
    // The page has a fill under way.
    Waiting,
    // 32 fills are under way.
    TooMany,
    // Every frame of the stock is out.
    NoFrame,
}

// Why a fill is not settled.
#[derive(Clone, Copy, PartialEq, Eq, Debug)]
pub enum SettleFault {
    // Attributes over 4,095.
    BadAttributes,
    // No fill with this page and frame is under way here.
    NoFill,
    // The block has no mapped page yet, and all nodes are linked.
    NoNode,
    // No compact word can have the block's pages then, it has no row, and all rows are in use.
    NoRow,
}

// Why a fill is not abandoned.
#[derive(Clone, Copy, PartialEq, Eq, Debug)]
pub enum AbandonFault {
    // No fill with this page and frame is under way here.
    NoFill,
}

// Why a page is not released.
#[derive(Clone, Copy, PartialEq, Eq, Debug)]
pub enum ReleaseFault {
    NotMapped,
}

// Why an access has no physical address.
#[derive(Clone, Copy, PartialEq, Eq, Debug)]
pub enum TouchFault {
    // The access is not 1, 2 or 4.
    BadAccess,
    NotMapped,
    // The attributes lack the bit of the access.
    Denied,
}

impl From<AddFault> for BeginFault {
    ghost from_gives = { BeginFromAdd };

    fn from(fault: AddFault) -> BeginFault {
        match fault {
            AddFault::Waiting => BeginFault::Waiting,
            AddFault::TooMany => BeginFault::TooMany,
        }
    }
}

impl From<AllocateFault> for BeginFault {
    ghost from_gives = { λ _ fault. fault ≡ NoFrame };

    fn from(fault: AllocateFault) -> BeginFault {
        match fault {
            AllocateFault::AllOut => BeginFault::NoFrame,
        }
    }
}

impl From<NoFill> for SettleFault {
    ghost from_gives = { λ _ fault. fault ≡ settle.NoFill };

    fn from(_fault: NoFill) -> SettleFault {
        SettleFault::NoFill
    }
}

// A page that is mapped has no fill under way.
impl From<MapFault> for SettleFault {
    ghost from_gives = { SettleFromMap };

    fn from(fault: MapFault) -> SettleFault {
        match fault {
            MapFault::Mapped => SettleFault::NoFill,
            MapFault::NoNode => SettleFault::NoNode,
            MapFault::NoRow => SettleFault::NoRow,
        }
    }
}

impl From<NoFill> for AbandonFault {
    ghost from_gives = { λ _ fault. fault ≡ abandon.NoFill };

    fn from(_fault: NoFill) -> AbandonFault {
        AbandonFault::NoFill
    }
}

// A frame that is not out was taken for no fill.
impl From<FreeFault> for AbandonFault {
    ghost from_gives = { λ _ fault. fault ≡ abandon.NoFill };

    fn from(_fault: FreeFault) -> AbandonFault {
        AbandonFault::NoFill
    }
}

impl From<NotMapped> for ReleaseFault {
    ghost from_gives = { λ _ fault. fault ≡ release.NotMapped };

    fn from(_fault: NotMapped) -> ReleaseFault {
        ReleaseFault::NotMapped
    }
}

// A frame that is not out is behind no page.
impl From<FreeFault> for ReleaseFault {
    ghost from_gives = { λ _ fault. fault ≡ release.NotMapped };

    fn from(_fault: FreeFault) -> ReleaseFault {
        ReleaseFault::NotMapped
    }
}

impl From<BadNumber> for TouchFault {
    ghost from_gives = { λ _ fault. fault ≡ touch.BadAccess };

    fn from(_number: BadNumber) -> TouchFault {
        TouchFault::BadAccess
    }
}

impl From<NotMapped> for TouchFault {
    ghost from_gives = { λ _ fault. fault ≡ touch.NotMapped };

    fn from(_fault: NotMapped) -> TouchFault {
        TouchFault::NotMapped
    }
}

impl From<BeginFault> for u64 {
    ghost from_gives = { λ fault n. n ≡ begin_number fault };

    fn from(fault: BeginFault) -> u64 {
        match fault {
            BeginFault::Mapped => 1,
            BeginFault::Waiting => 2,
            BeginFault::TooMany => 3,
            BeginFault::NoFrame => 4,
        }
    }
}

impl From<SettleFault> for u64 {
    ghost from_gives = { λ fault n. n ≡ settle_number fault };

    fn from(fault: SettleFault) -> u64 {
        match fault {
            SettleFault::BadAttributes => 5,
            SettleFault::NoFill => 6,
            SettleFault::NoNode => 7,
            SettleFault::NoRow => 8,
        }
    }
}

impl From<AbandonFault> for u64 {
    ghost from_gives = { λ fault n. n ≡ abandon_number fault };

    fn from(fault: AbandonFault) -> u64 {
        match fault {
            AbandonFault::NoFill => 6,
        }
    }
}

impl From<ReleaseFault> for u64 {
    ghost from_gives = { λ fault n. n ≡ release_number fault };

    fn from(fault: ReleaseFault) -> u64 {
        match fault {
            ReleaseFault::NotMapped => 9,
        }
    }
}

impl From<TouchFault> for u64 {
    ghost from_gives = { λ fault n. n ≡ touch_number fault };

    fn from(fault: TouchFault) -> u64 {
        match fault {
            TouchFault::BadAccess => 10,
            TouchFault::NotMapped => 9,
            TouchFault::Denied => 11,
        }
    }
}

impl fmt::Display for BeginFault {
    ghost output = { λ fault. Some (begin_reason fault) };

    fn fmt<W: fmt::Write>(&self, f: &mut fmt::Formatter<W>) -> fmt::Result {
        f.write_str(match self {
            BeginFault::Mapped => "the page is mapped",
            BeginFault::Waiting => "the page has a fill under way",
            BeginFault::TooMany => "32 fills are under way",
            BeginFault::NoFrame => "every frame of the stock is out",
        })
    }
}

impl fmt::Display for SettleFault {
    ghost output = { λ fault. Some (settle_reason fault) };

    fn fmt<W: fmt::Write>(&self, f: &mut fmt::Formatter<W>) -> fmt::Result {
        f.write_str(match self {
            SettleFault::BadAttributes => "attributes over 4095",
            SettleFault::NoFill => "no such fill is under way",
            SettleFault::NoNode => "all nodes are linked",
            SettleFault::NoRow => "all rows are in use",
        })
    }
}

impl fmt::Display for AbandonFault {
    ghost output = { λ fault. Some (abandon_reason fault) };

    fn fmt<W: fmt::Write>(&self, f: &mut fmt::Formatter<W>) -> fmt::Result {
        f.write_str(match self {
            AbandonFault::NoFill => "no such fill is under way",
        })
    }
}

impl fmt::Display for ReleaseFault {
    ghost output = { λ fault. Some (release_reason fault) };

    fn fmt<W: fmt::Write>(&self, f: &mut fmt::Formatter<W>) -> fmt::Result {
        f.write_str(match self {
            ReleaseFault::NotMapped => "the page is not mapped",
        })
    }
}

impl fmt::Display for TouchFault {
    ghost output = { λ fault. Some (touch_reason fault) };

    fn fmt<W: fmt::Write>(&self, f: &mut fmt::Formatter<W>) -> fmt::Result {
        f.write_str(match self {
            TouchFault::BadAccess => "no such access",
            TouchFault::NotMapped => "the page is not mapped",
            TouchFault::Denied => "the attributes lack the access",
        })
    }
}

impl Error for BeginFault {}

impl Error for SettleFault {}

impl Error for AbandonFault {}

impl Error for ReleaseFault {}

impl Error for TouchFault {}
