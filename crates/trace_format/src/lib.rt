// The format of traces: the records that a trace is read as, and the lines that are written of them.
#![tactic(auto)]

mod fault;
mod laws;
mod line;
mod reader;
mod record;
#[cfg(test)]
mod tests;

pub use fault::{Fault, ShortBuffer, Trouble};
pub use laws::{answers_are_read, one_line_for_a_text, one_reading, one_trouble, spelled_again};
pub use line::{LINE_ROOM, Line, Mark, write_line};
pub use reader::{Part, Reader};
pub use record::{Kind, Record};
