//! The parser of QML expressions: from tokens to the longest expression that they begin with, or to the
//! first fault with its place. Contracts see tokens as the grammar's, and say that each function reads
//! what the grammar's definition reads.
#![tactic(auto)]

mod cursor;
mod lexeme;
mod natural;
pub mod parser;
mod precedence;
mod token;

pub use cursor::Cursor;
pub use lexeme::Lexeme;
pub use natural::Natural;
pub use parser::{MAX_NODES, expression, member, whole_expression};
pub use token::Token;
