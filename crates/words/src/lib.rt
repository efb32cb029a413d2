// Pages, blocks and mapping words of a clustered page table, and the reader that a TLB miss handler calls.
#![tactic(auto)]

mod access;
mod address;
mod compact;
mod fault;
mod form;
mod full;
mod laws;
mod offset_set;
mod parts;
mod reader;
mod translation;
mod word;

pub use access::Access;
pub use address::{Block, Offset, Page};
pub use compact::CompactWord;
pub use fault::{BadNumber, ReadFault};
pub use form::Form;
pub use full::FullWord;
pub use laws::{accepted_are_values, one_word_for_a_page, same_word_same_pages, worked_values};
pub use offset_set::OffsetSet;
pub use reader::{joistolive_read_word, read_word};
pub use translation::Translation;
pub use word::Word;
