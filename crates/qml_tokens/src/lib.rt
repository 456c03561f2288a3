//! From the bytes of a text to its tokens as the grammar has them: names told from words, numbers and
//! texts with their values, marks by their bytes.
#![tactic(auto)]

pub mod laws;
mod lexeme;
mod mark;
pub mod tokens;

pub use tokens::tokens_of_text;
