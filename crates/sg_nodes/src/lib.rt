//! The nodes that are drawn: groups and rectangles under keys, each with its children in order.
#![tactic(auto)]

mod growth;
mod lists;
pub mod node;
pub mod nodes;

pub use node::{GroupNode, Node, NodeBody, NodeKind, RectNode};
pub use nodes::Nodes;
