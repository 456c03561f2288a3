//! Which area a pointer is over, and which one holds its press. Places are in pixels.
#![tactic(auto)]

pub mod area;
pub mod grab;

pub use area::{Area, hit};
pub use grab::Grab;
