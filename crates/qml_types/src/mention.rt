use qml_ast::{Name, Span};

/// A type that a document names and the engine has not.
#[derive(Drop)]
pub struct Mention {
    /// The type's name.
    pub name: Name,
    /// Where the document names it first.
    pub span: Span,
}
