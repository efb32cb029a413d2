// Why a fill is not taken in or not taken out.
ghost use Rattle.std.specs.Prelude.{◌≡◌, Some};
ghost use Rattle.fills.specs.Faults.{add_number, no_fill_number, add_reason, no_fill_reason};

use std::error::Error;
use std::fmt;

// Why no fill is begun.
#[derive(Clone, Copy, PartialEq, Eq, Debug)]
pub enum AddFault {
    // The page has a fill under way.
    Waiting,
    // 32 fills are under way.
    TooMany,
}

// No fill with this page and frame is under way.
#[derive(Clone, Copy, PartialEq, Eq, Debug)]
pub struct NoFill;

impl From<AddFault> for u64 {
    ghost from_gives = { λ fault n. n ≡ add_number fault };

    fn from(fault: AddFault) -> u64 {
        match fault {
            AddFault::Waiting => 2,
            AddFault::TooMany => 3,
        }
    }
}

impl From<NoFill> for u64 {
    ghost from_gives = { λ _ n. n ≡ no_fill_number };

    fn from(_fault: NoFill) -> u64 {
        6
    }
}

impl fmt::Display for AddFault {
    ghost output = { λ fault. Some (add_reason fault) };

    fn fmt<W: fmt::Write>(&self, f: &mut fmt::Formatter<W>) -> fmt::Result {
        f.write_str(match self {
            AddFault::Waiting => "the page has a fill under way",
            AddFault::TooMany => "32 fills are under way",
        })
    }
}

impl fmt::Display for NoFill {
    ghost output = { λ _. Some no_fill_reason };

    fn fmt<W: fmt::Write>(&self, f: &mut fmt::Formatter<W>) -> fmt::Result {
        f.write_str("no such fill is under way")
    }
}

impl Error for AddFault {}

impl Error for NoFill {}
