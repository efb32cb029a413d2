// Why a comparison stops.
use std::alloc::AllocError;
use std::fmt;
use words::BadNumber;

#[derive(Clone, Copy)]
pub enum Fault {
    // No page or no entry has the numbers of the call.
    BadNumbers,
    NoMemory,
}

impl From<AllocError> for Fault {
    fn from(_: AllocError) -> Fault {
        Fault::NoMemory
    }
}

impl From<BadNumber> for Fault {
    fn from(_: BadNumber) -> Fault {
        Fault::BadNumbers
    }
}

// Where a comparison stops; the first call is 0.
#[derive(Clone, Copy)]
pub enum Stop {
    Faulty { call: u32, fault: Fault },
    Differs { call: u32 },
}

impl fmt::Display for Stop {
    fn fmt<W: fmt::Write>(&self, f: &mut fmt::Formatter<W>) -> fmt::Result {
        match *self {
            Stop::Faulty {
                call,
                fault: Fault::BadNumbers,
            } => write!(f, "the numbers of call {call} are bad"),
            Stop::Faulty {
                call,
                fault: Fault::NoMemory,
            } => write!(f, "no memory at call {call}"),
            Stop::Differs { call } => {
                write!(f, "call {call} is answered otherwise than by the model")
            }
        }
    }
}
