//! What a run tells beside its pictures: the notes, line by line, and how the faults of documents are
//! told.
#![tactic(auto)]

mod load_text;
mod note;
mod notes;

pub use load_text::load_fault_text;
pub use note::{LimitKind, Note, RunNote};
pub use notes::Notes;
