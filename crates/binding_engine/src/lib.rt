//! Settling of the objects that documents make: after writes, each property that is bound to an expression gets
//! its value, and what reads itself is stopped.
#![tactic(auto)]

mod cells;
mod engine;
mod equations;
mod findings;
pub mod ignored;
mod present;
mod waiting;
mod writes;

pub use engine::{Engine, Settled};
pub use ignored::Ignored;
pub use writes::Writes;
