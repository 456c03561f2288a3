use crate::expr::Expr;
use crate::name::Name;
use sqlite_items::{Boxed, Items};

/// The mark of an assignment.
#[derive(Clone, Copy, Debug, PartialEq, Eq)]
pub enum AssignOp {
    /// `=`
    Set,
    /// `+=`
    Add,
    /// `-=`
    Sub,
    /// `*=`
    Mul,
    /// `/=`
    Div,
}

/// The word that declares a local.
#[derive(Clone, Copy, Debug, PartialEq, Eq)]
pub enum LocalWord {
    Var,
    Let,
    Const,
}

/// A statement of a handler or a method.
#[derive(Drop)]
pub enum Stmt {
    /// `var name = value`, where the value may be absent.
    Local(LocalWord, Name, Option<Expr>),
    /// `target = value`, or another assignment.
    Assign(Expr, AssignOp, Expr),
    /// `target++`, where the flag is true, and else `target--`.
    Step(Expr, bool),
    /// An expression for its effects.
    Do(Expr),
    Block(Items<Stmt>),
    /// `;`
    Empty,
    /// `if (condition) then else otherwise`
    If(Expr, Boxed<Stmt>, Option<Boxed<Stmt>>),
    /// `while (condition) body`
    While(Expr, Boxed<Stmt>),
    /// `for (first; condition; step) body`
    For(Option<Boxed<Stmt>>, Option<Expr>, Option<Boxed<Stmt>>, Boxed<Stmt>),
    /// `return value`, where the value may be absent.
    Return(Option<Expr>),
}
