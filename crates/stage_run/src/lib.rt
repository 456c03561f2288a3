//! The whole run of the program: words, script and document in, frames out, with a cause for every
//! answer.
#![tactic(auto)]

mod frames;
pub mod journal;
pub mod laws;
mod picture;
mod script;
mod sources;
pub mod stage;
mod start;
pub mod status;
mod telling;
pub mod words;

pub use journal::{Journal, Move};
pub use laws::{one_fault, one_painting, one_script};
pub use stage::{Outcome, run};
pub use status::{Status, exit_of, status_line};
pub use words::Words;
