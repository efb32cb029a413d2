// The blocks of a page table: each with its pages in one compact word or in a row, on a node of its own.
#![tactic(auto)]

mod blocks;
mod fault;
mod row;
mod rows;
mod shape;

pub use blocks::{Blocks, Walked};
pub use fault::NoRoom;
