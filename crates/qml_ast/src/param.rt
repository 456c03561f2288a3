use crate::name::Name;
use crate::span::Span;

/// A parameter of a signal.
#[derive(Drop)]
pub struct SignalParam {
    pub kind: Name,
    pub name: Name,
    /// Where the kind stands.
    pub kind_span: Span,
    /// Where the name stands.
    pub name_span: Span,
}

/// A parameter of a method.
#[derive(Drop)]
pub struct MethodParam {
    pub name: Name,
    /// Where the name stands.
    pub span: Span,
}
