//! The canonical text of a document: one spelling for each tree. Four spaces a level, one member or
//! statement a line, no parentheses that the grammar does not need, and texts in double quotes.
#![tactic(auto)]

mod decl;
mod document;
mod expr;
mod literal;
mod sheet;
mod stmt;

pub use document::{print, print_expr, print_stmt};
