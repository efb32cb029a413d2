// Why an allocator refuses.
ghost use Rattle.std.specs.Prelude.{◌≡◌, Some};
ghost use Rattle.frames.specs.Faults.{allocate_number, allocate_reason, free_number, free_reason};

use std::error::Error;
use std::fmt;

#[derive(Clone, Copy, PartialEq, Eq, Debug)]
pub enum AllocateFault {
    // Every frame of the stock is out.
    AllOut,
}

#[derive(Clone, Copy, PartialEq, Eq, Debug)]
pub enum FreeFault {
    // The frame is not out.
    NotOut,
}

impl From<AllocateFault> for u64 {
    ghost from_gives = { λ fault n. n ≡ allocate_number fault };

    fn from(fault: AllocateFault) -> u64 {
        match fault {
            AllocateFault::AllOut => 4,
        }
    }
}

impl From<FreeFault> for u64 {
    ghost from_gives = { λ fault n. n ≡ free_number fault };

    fn from(fault: FreeFault) -> u64 {
        match fault {
            FreeFault::NotOut => 12,
        }
    }
}

impl fmt::Display for AllocateFault {
    ghost output = { λ fault. Some (allocate_reason fault) };

    fn fmt<W: fmt::Write>(&self, f: &mut fmt::Formatter<W>) -> fmt::Result {
        f.write_str(match self {
            AllocateFault::AllOut => "every frame of the stock is out",
        })
    }
}

impl fmt::Display for FreeFault {
    ghost output = { λ fault. Some (free_reason fault) };

    fn fmt<W: fmt::Write>(&self, f: &mut fmt::Formatter<W>) -> fmt::Result {
        f.write_str(match self {
            FreeFault::NotOut => "the frame is not out",
        })
    }
}

impl Error for AllocateFault {}

impl Error for FreeFault {}
