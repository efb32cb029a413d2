// Why a trace ends early, and why a line is not written.
ghost use Rattle.std.specs.Prelude.{◌≡◌, Some};
ghost use Rattle.trace_format.specs.Faults.{trouble_number, trouble_reason, fault_text, short_buffer_number, short_buffer_reason};

use std::error::Error;
use std::fmt;

// What is wrong where no record stands.
#[derive(Clone, Copy, PartialEq, Eq, Debug)]
pub enum Trouble {
    // One or two bytes are left, or fewer than the payload takes.
    Cut,
    UnknownTag,
    // Not the length that the payload of such a record has.
    WrongLength,
}

// Why a trace ends early: what is wrong, and where the tag of the record stands, in bytes from 0.
#[derive(Clone, Copy, PartialEq, Eq, Debug)]
pub struct Fault {
    pub trouble: Trouble,
    pub place: usize,
}

// The buffer is shorter than 64 bytes.
#[derive(Clone, Copy, PartialEq, Eq, Debug)]
pub struct ShortBuffer;

impl From<Trouble> for u32 {
    ghost from_gives = { λ trouble n. n ≡ trouble_number trouble };

    fn from(trouble: Trouble) -> u32 {
        match trouble {
            Trouble::Cut => 13,
            Trouble::UnknownTag => 14,
            Trouble::WrongLength => 15,
        }
    }
}

impl From<ShortBuffer> for u32 {
    ghost from_gives = { λ _ n. n ≡ short_buffer_number };

    fn from(_fault: ShortBuffer) -> u32 {
        16
    }
}

impl fmt::Display for Trouble {
    ghost output = { λ trouble. Some (trouble_reason trouble) };

    fn fmt<W: fmt::Write>(&self, f: &mut fmt::Formatter<W>) -> fmt::Result {
        f.write_str(match self {
            Trouble::Cut => "the record is cut short",
            Trouble::UnknownTag => "no record has this tag",
            Trouble::WrongLength => "no payload of such a record has this length",
        })
    }
}

impl fmt::Display for Fault {
    ghost output = { λ fault. Some (fault_text fault) };

    fn fmt<W: fmt::Write>(&self, f: &mut fmt::Formatter<W>) -> fmt::Result {
        let trouble = self.trouble;
        let place = self.place;
        write!(f, "{trouble}, at byte {place}")
    }
}

impl fmt::Display for ShortBuffer {
    ghost output = { λ _. Some short_buffer_reason };

    fn fmt<W: fmt::Write>(&self, f: &mut fmt::Formatter<W>) -> fmt::Result {
        f.write_str("the buffer is shorter than 64 bytes")
    }
}

impl Error for Trouble {}

impl Error for Fault {}

impl Error for ShortBuffer {}
