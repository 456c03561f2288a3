//! Settling: bindings that depend on each other are brought up to date by demand, in the order of their
//! places, and what reads itself is stopped. What the places are, and how their expressions are evaluated,
//! is for the caller to say by a `Field`.
#![tactic(auto)]

mod field;
mod found;
pub mod laws;
mod turns;
mod visits;

pub use field::{Field, Phase};
pub use found::LoopFound;
pub use visits::settle;
