// What a line asks of the word reader.
ghost use Rattle.std.specs.Prelude.{◌≡◌};
ghost use Rattle.word_lines.specs.Queries.{query_of};

use crate::numeral::{decimal, hexadecimal};
use crate::pieces::Fields;

#[derive(Clone, Copy, PartialEq, Eq, Debug)]
pub struct Query {
    pub form: u64,
    pub word: u64,
    pub offset: u64,
}

// The query that a line writes as a form, a word in hexadecimal and an offset; none where it is anything else. No `FromStr`, which is for
// text: a line is any bytes.
pub fn parse_line(line: &[u8]) -> Option<Query>
    ensures { result ≡ query_of line.now }
{
    let mut fields = Fields::new(line);
    let form = decimal(fields.next()?)?;
    let word = hexadecimal(fields.next()?)?;
    let offset = decimal(fields.next()?)?;
    fields
        .next()
        .is_none()
        .then_some(Query { form, word, offset })
}
