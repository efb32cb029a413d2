// Why a comparison stops.
ghost use Rattle.std.specs.Prelude.{◌≡◌};
ghost use Rattle.reservation_compare.specs.declared.fault.Fault.TheVariants.{BadPage, NoMemory};

use crate::calls::Call;
use std::alloc::{AllocError, AllocFailed};
use std::fmt;
use words::BadNumber;

#[derive(Clone, Copy, PartialEq, Eq, Debug)]
pub enum Fault {
    // No page has the number of the call.
    BadPage,
    // The allocator and the model do not agree.
    Differs,
    NoMemory,
}

impl From<AllocFailed<u32>> for Fault {
    ghost from_gives = { λ _ fault. fault ≡ NoMemory };

    fn from(_: AllocFailed<u32>) -> Fault {
        Fault::NoMemory
    }
}

impl From<AllocError> for Fault {
    ghost from_gives = { λ _ fault. fault ≡ NoMemory };

    fn from(_: AllocError) -> Fault {
        Fault::NoMemory
    }
}

impl From<BadNumber> for Fault {
    ghost from_gives = { λ _ fault. fault ≡ BadPage };

    fn from(_: BadNumber) -> Fault {
        Fault::BadPage
    }
}

// A fault at a call, after so many that agree.
#[derive(Clone, Copy)]
pub struct Stop {
    pub before: usize,
    pub call: Call,
    pub fault: Fault,
}

impl fmt::Display for Stop {
    fn fmt<W: fmt::Write>(&self, f: &mut fmt::Formatter<W>) -> fmt::Result {
        let Stop { before, call, .. } = *self;
        match self.fault {
            Fault::BadPage => write!(f, "after {before} calls no page has the number: {call}"),
            Fault::Differs => write!(
                f,
                "after {before} calls that agree the answer is against the rules: {call}"
            ),
            Fault::NoMemory => write!(f, "after {before} calls there is no memory: {call}"),
        }
    }
}
