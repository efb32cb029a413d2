// Why something is refused.
ghost use Rattle.std.specs.Prelude.{◌≡◌, Some};
ghost use Rattle.words.specs.Faults.{read_fault_number, reason, no_such_number};
ghost use Rattle.words.specs.declared.fault.ReadFault.TheVariants.{BadWord};

use std::error::Error;
use std::fmt;

// Why a word reader gives no translation.
#[derive(Clone, Copy, PartialEq, Eq, Debug)]
pub enum ReadFault {
    // There is no such form or offset, or the word breaks the rules of its form.
    BadWord,
    // The word is sound, and the page is not in it.
    NotMapped,
}

// A number that names no value of the type that it is taken for.
#[derive(Clone, Copy, PartialEq, Eq, Debug)]
pub struct BadNumber;

impl From<ReadFault> for u64 {
    ghost from_gives = { λ fault n. n ≡ read_fault_number fault };

    fn from(fault: ReadFault) -> u64 {
        match fault {
            ReadFault::BadWord => 17,
            ReadFault::NotMapped => 9,
        }
    }
}

impl From<BadNumber> for ReadFault {
    ghost from_gives = { λ _ fault. fault ≡ BadWord };

    fn from(_number: BadNumber) -> ReadFault {
        ReadFault::BadWord
    }
}

impl fmt::Display for ReadFault {
    ghost output = { λ fault. Some (reason fault) };

    fn fmt<W: fmt::Write>(&self, f: &mut fmt::Formatter<W>) -> fmt::Result {
        f.write_str(match self {
            ReadFault::BadWord => "no such form or offset, or no word of that form",
            ReadFault::NotMapped => "the page is not in the word",
        })
    }
}

impl fmt::Display for BadNumber {
    ghost output = { λ _. Some no_such_number };

    fn fmt<W: fmt::Write>(&self, f: &mut fmt::Formatter<W>) -> fmt::Result {
        f.write_str("no value of the type has that number")
    }
}

impl Error for ReadFault {}

impl Error for BadNumber {}
