use crate::lexeme::Lexeme;
use qml_ast::Span;

/// A token of a document.
#[derive(Drop)]
pub struct Token {
    pub lexeme: Lexeme,
    /// Where its first byte stands.
    pub span: Span,
}
