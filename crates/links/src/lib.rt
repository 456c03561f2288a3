//! Doubly linked lists of numbered cells, whose memory is reserved beforehand: 16 bytes for a cell and
//! 12 for a list.
#![tactic(auto)]

mod cell;
pub mod links;
pub mod node_key;
mod number;
mod packed;
mod pool;
mod slot;

pub use links::Links;
pub use node_key::NodeKey;
