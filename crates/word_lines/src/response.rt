// What a line gets, and how it is written.
ghost use Rattle.std.specs.Prelude.{◌≡◌, Some};
ghost use Rattle.word_lines.specs.Responses.{letter, response, response_text};

use crate::query::parse_line;
use std::fmt;
use words::{Access, ReadFault, Translation, read_word};

#[derive(Clone, Copy)]
pub enum Response {
    // What the word reader says.
    Answer(Result<Translation, ReadFault>),
    // The line asks nothing: its number, from 1.
    Malformed(u64),
}

impl Response {
    // What the line of this number gets.
    pub fn to_line(number: u64, line: &[u8]) -> Response
        ensures { result ≡ response number line.now }
    {
        let Some(query) = parse_line(line) else {
            return Response::Malformed(number);
        };
        Response::Answer(read_word(query.form, query.word, query.offset))
    }
}

// The letter of an access that is allowed, and else a dash: a `Display` of the access alone cannot know which.
fn letter_of(translation: Translation, access: Access) -> &'static str
    ensures { result.now ≡ letter translation.attributes access }
{
    if !translation.allows(access) {
        return "-";
    }
    match access {
        Access::Read => "r",
        Access::Write => "w",
        Access::Execute => "x",
    }
}

impl fmt::Display for Response {
    ghost output = { λ r. Some (response_text r) };

    fn fmt<W: fmt::Write>(&self, f: &mut fmt::Formatter<W>) -> fmt::Result {
        match self {
            Response::Answer(Ok(translation)) => {
                let frame = translation.frame;
                let address = u64::from(frame) * 4096;
                let attributes = translation.attributes;
                let read = letter_of(*translation, Access::Read);
                let write = letter_of(*translation, Access::Write);
                let execute = letter_of(*translation, Access::Execute);
                write!(
                    f,
                    "frame {frame} address {address} attributes {attributes} {read}{write}{execute}"
                )
            }
            Response::Answer(Err(fault)) => {
                let number = u64::from(*fault);
                write!(f, "refused {number}: {fault}")
            }
            Response::Malformed(number) => {
                write!(
                    f,
                    "line {number}: not a form, a word in hexadecimal and an offset"
                )
            }
        }
    }
}
