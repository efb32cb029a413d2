// The two forms of a mapping word: a compact word speaks of a whole block, a full word of one page.
ghost use Rattle.std.specs.Prelude.{◌≡◌};
ghost use Rattle.words.specs.Reading.{form_number, NumbersForm};

use crate::fault::BadNumber;

#[derive(Clone, Copy, PartialEq, Eq, Debug)]
pub enum Form {
    Compact,
    Full,
}

// 1 for compact, 2 for full.
impl From<Form> for u64 {
    ghost from_gives = { λ form n. n ≡ form_number form };

    fn from(form: Form) -> u64 {
        match form {
            Form::Compact => 1,
            Form::Full => 2,
        }
    }
}

// There is no form of any number but 1 and 2.
impl TryFrom<u64> for Form {
    type Error = BadNumber;

    ghost try_from_gives = { NumbersForm };

    fn try_from(number: u64) -> Result<Form, BadNumber> {
        match number {
            1 => Ok(Form::Compact),
            2 => Ok(Form::Full),
            _ => Err(BadNumber),
        }
    }
}
