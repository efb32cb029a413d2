// A mapping word of either form.
ghost use Rattle.std.specs.Prelude.{◌≡◌};
ghost use Rattle.words.specs.Made.{Made};
ghost use Rattle.words.specs.Reading.{is_word, said};
ghost use Rattle.words.specs.Words.{form_of, bits_of};

use crate::address::Offset;
use crate::compact::CompactWord;
use crate::form::Form;
use crate::full::FullWord;
use crate::translation::Translation;

#[derive(Clone, Copy, PartialEq, Eq, Debug)]
pub enum Word {
    Compact(CompactWord),
    Full(FullWord),
}

impl Word {
    // The word of a form with these bits; none where they are no word of that form.
    pub fn from_bits(form: Form, bits: u64) -> Option<Word>
        ensures { Made result (is_word form bits) (λ w. (form_of w ≡ form) × (bits_of w ≡ bits)) }
    {
        match form {
            Form::Compact => Some(Word::Compact(CompactWord::from_bits(bits)?)),
            Form::Full => Some(Word::Full(FullWord::from_bits(bits)?)),
        }
    }

    pub fn form(self) -> Form
        ensures { result ≡ form_of self }
    {
        match self {
            Word::Compact(_) => Form::Compact,
            Word::Full(_) => Form::Full,
        }
    }

    pub fn bits(self) -> u64
        ensures { result ≡ bits_of self }
    {
        match self {
            Word::Compact(word) => word.bits,
            Word::Full(word) => word.bits,
        }
    }

    // What the page at an offset is mapped to; a full word speaks of one page, and says the same at each offset.
    pub fn read(self, offset: Offset) -> Option<Translation>
        ensures { result ≡ said (form_of self) (bits_of self) offset.number }
    {
        match self {
            Word::Compact(word) => word.read(offset),
            Word::Full(word) => word.read(),
        }
    }
}
