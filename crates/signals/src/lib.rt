//! Writes and signals, and the handlers that they run.
#![tactic(auto)]

mod assigning;
mod calling;
pub mod calls;
pub mod ending;
mod events;
pub mod job;
mod jobs;
mod noting;
mod running;
mod settles;
mod texts;
mod valuing;
pub mod world;

pub use calls::{MOST_HANDLERS, MOST_STATEMENTS};
pub use ending::Ran;
pub use world::{Event, HandlerRef, World};
