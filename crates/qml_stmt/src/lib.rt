//! The parser of QML statements: from tokens to the statement or the block that they begin with, or to
//! the first fault with its place. Contracts see tokens as the grammar's, and say that each function reads
//! what the grammar's definition reads.
#![tactic(auto)]

mod ends;
mod lookahead;
mod parser;
mod short;

pub use ends::end;
pub use parser::{block, statement};
