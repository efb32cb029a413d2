// Blocks on nodes, in chains by bucket.
#![tactic(auto)]

mod chains;
mod node;

pub use chains::Chains;
pub use node::{Body, Found, NoNode, RowNumber};
