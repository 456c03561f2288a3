use crate::name::Name;
use std::fmt;

/// A place in a text. Places are in the order of their lines, and in a line of their columns.
#[derive(Clone, Copy, Debug, PartialEq, Eq, PartialOrd, Ord)]
pub struct Span {
    /// The line, from 1 on.
    pub line: u32,
    /// The column, from 1 on, counted in bytes.
    pub col: u32,
}

impl fmt::Display for Span {
    fn fmt<W: fmt::Write>(&self, f: &mut fmt::Formatter<W>) -> fmt::Result {
        write!(f, "{}:{}", self.line, self.col)
    }
}

/// A place in a document.
#[derive(Clone, Copy, Debug)]
pub struct At<'a> {
    /// The document's file.
    pub file: &'a Name,
    /// Where in its text.
    pub span: Span,
}
