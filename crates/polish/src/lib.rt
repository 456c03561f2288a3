//! Rounds of layout, up to the first that changes nothing.
#![tactic(auto)]

pub mod layouts;
pub mod rounds;
mod waiting;

pub use layouts::Layouts;
pub use rounds::{Rounds, polish};
