// The responses to all lines of a text.
ghost use Rattle.std.specs.Prelude.{◌≡◌, IfOk, string_bytes};
ghost use Rattle.word_lines.specs.Responses.{responses_to};

use crate::pieces::{Pieces, Separator};
use crate::response::Response;
use std::alloc::{AllocError, Global};

// The response to each line of the input, in order, each on a line of its own.
pub fn respond(heap: Global, input: &[u8]) -> Result<String, AllocError>
    ensures { IfOk result (λ text. string_bytes text ≡ responses_to input.now) }
{
    let mut text = String::new(heap);
    for (i, line) in Pieces::new(input, Separator::LineFeed).enumerate() {
        let response = Response::to_line(i as u64 + 1, line);
        writeln!(text, "{response}")?;
    }
    Ok(text)
}
