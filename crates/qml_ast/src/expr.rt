use crate::name::Name;
use crate::value::Value;
use sqlite_items::{Boxed, Items};

/// An operator before its operand.
#[derive(Clone, Copy, Debug, PartialEq, Eq)]
pub enum UnOp {
    /// `-`
    Neg,
    /// `+`
    Plus,
    /// `!`
    Not,
}

/// An operator between two operands, both of which are always evaluated.
#[derive(Clone, Copy, Debug, PartialEq, Eq)]
pub enum BinOp {
    /// `+`
    Add,
    /// `-`
    Sub,
    /// `*`
    Mul,
    /// `/`
    Div,
    /// `%`
    Rem,
    /// `<`
    Lt,
    /// `<=`
    Le,
    /// `>`
    Gt,
    /// `>=`
    Ge,
    /// `==`
    Eq,
    /// `!=`
    Ne,
    /// `===`
    Eq3,
    /// `!==`
    Ne3,
}

/// An expression.
#[derive(Drop)]
pub enum Expr {
    Lit(Value),
    Name(Name),
    /// `object.name`
    Member(Boxed<Expr>, Name),
    /// `callee(argument, argument, ..)`
    Call(Boxed<Expr>, Items<Expr>),
    Unary(UnOp, Boxed<Expr>),
    Binary(BinOp, Boxed<Expr>, Boxed<Expr>),
    /// `left && right`
    And(Boxed<Expr>, Boxed<Expr>),
    /// `left || right`
    Or(Boxed<Expr>, Boxed<Expr>),
    /// `condition ? then : otherwise`
    Cond(Boxed<Expr>, Boxed<Expr>, Boxed<Expr>),
}
