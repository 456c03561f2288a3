//! The lexer of QML: from the bytes of a document to its tokens, and from a token's text to its value.
//! Places are lines and columns from 1 on, columns counted in bytes; LF alone ends a line.
#![tactic(auto)]

mod bytes;
mod comment;
pub mod laws;
pub mod lexer;
mod mark;
pub mod meaning;
mod number;
mod piece;
mod place;
mod text;
pub mod token;

pub use lexer::{Scanner, lex};
pub use meaning::{DecimalValue, decimal_value, integer_value, name_text, text_value};
pub use place::end_place;
pub use token::{Token, TokenKind, Tokens};
