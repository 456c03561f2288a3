//! The parser of QML documents: from the bytes of a text to the document that they spell, or to its first
//! fault with its place. Contracts say that each function reads what the grammar's definition reads.
#![tactic(auto)]

mod decl;
pub mod document;
mod import;
pub mod laws;
mod lookahead;
mod member;
mod method;
mod path;
mod signal;
mod value;

pub use document::parse;
pub use laws::one_reading;
