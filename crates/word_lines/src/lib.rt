// Lines of text that ask what a mapping word says of a page, and the lines that respond to them.
#![tactic(auto)]

mod numeral;
mod pieces;
mod query;
mod responder;
mod response;

pub use query::{Query, parse_line};
pub use responder::respond;
pub use response::Response;
