use crate::expr::Expr;
use crate::name::Name;
use crate::param::{MethodParam, SignalParam};
use crate::path::Path;
use crate::span::Span;
use crate::stmt::Stmt;
use shared_value::Shared;
use sqlite_items::{Boxed, Items};

/// What a property is initialised with. An expression is shared, since each object that is made keeps it
/// as long as the property is bound to it.
#[cycle(decl)]
#[derive(Drop)]
pub enum Init {
    Expr(Shared<Expr>),
    Object(Boxed<Decl>),
}

/// A member of an object's declaration.
#[cycle(decl)]
#[derive(Drop)]
pub enum Member {
    /// `id: name`
    Id(Name, Span),
    /// `property kind name: init`
    Property {
        /// Whether `readonly` stands before it.
        fixed: bool,
        kind: Name,
        name: Name,
        init: Option<Init>,
        /// Where the kind stands.
        kind_span: Span,
        /// Where the value stands: a literal inside its parentheses, and else the value's first token.
        /// Where there is no value it means nothing.
        value_span: Span,
        /// Where the name stands.
        span: Span,
    },
    /// `signal name(kind name, kind name, ..)`
    Signal {
        name: Name,
        params: Items<SignalParam>,
        /// Where the name stands.
        span: Span,
    },
    /// `path: init`
    Init {
        path: Path,
        init: Init,
        /// Where the value stands: a literal inside its parentheses, and else the value's first token.
        value_span: Span,
        /// Where the path stands.
        span: Span,
    },
    /// `path: body`
    Handler {
        path: Path,
        body: Shared<Boxed<Stmt>>,
        /// Where the path stands.
        span: Span,
    },
    /// `function name(name, name, ..) { body }`
    Method {
        name: Name,
        params: Items<MethodParam>,
        body: Shared<Items<Stmt>>,
        /// Where the name stands.
        span: Span,
    },
    Child(Decl),
}

/// The declaration of an object: `name { member member .. }`.
#[cycle(decl)]
#[derive(Drop)]
pub struct Decl {
    /// The type's name.
    pub name: Name,
    pub members: Items<Member>,
    /// Where the type's name stands.
    pub span: Span,
}
