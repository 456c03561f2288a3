//! Where a row and a column put their children, and the size that the row or column has of itself.
#![tactic(auto)]

mod axis;
mod lengths;
mod offsets;
pub mod positioner;

pub use positioner::{column, row};
