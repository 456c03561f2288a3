//! What isn't run yet of documents that are lawful.
#![tactic(auto)]

pub mod unrun;

pub use unrun::{Unrun, first_unrun};
