//! Units: a document together with all documents that it mentions, each read and parsed once, and their
//! component types. The order of the list, its limits and its faults stand in `specs/`.
#![tactic(auto)]

pub mod cache;
mod compiling;
mod cycle;
mod fetching;
pub mod flaw;
mod gathering;
pub mod laws;
mod loading;
pub mod made;
pub mod names;
mod naming;
mod order;
pub mod source;
mod telling;
pub mod unit;

pub use cache::Cache;
pub use laws::one_answer;
pub use loading::load;
pub use unit::{Arrival, Unit};
