// The three kinds of access to a page.
ghost use Rattle.std.specs.Prelude.{◌≡◌, MatchResult, ◌≢◌};
ghost use Rattle.words.specs.Access.{access_number, NumbersAccess};

use crate::fault::BadNumber;

#[derive(Clone, Copy, PartialEq, Eq, Debug)]
pub enum Access {
    Read,
    Write,
    Execute,
}

// 1 for read, 2 for write, 4 for execute.
impl From<Access> for u8 {
    ghost from_gives = { λ access n. n ≡ access_number access };

    fn from(access: Access) -> u8 {
        match access {
            Access::Read => 1,
            Access::Write => 2,
            Access::Execute => 4,
        }
    }
}

// There is no access of any number but 1, 2 and 4.
impl TryFrom<u8> for Access {
    type Error = BadNumber;

    ghost try_from_gives = { NumbersAccess };

    fn try_from(number: u8) -> Result<Access, BadNumber> {
        match number {
            1 => Ok(Access::Read),
            2 => Ok(Access::Write),
            4 => Ok(Access::Execute),
            _ => Err(BadNumber),
        }
    }
}
