//! What a QML document is once it is read: declarations, statements, expressions and the values that
//! they mention, the faults of documents and of evaluations, and the arithmetic of values. Contracts
//! see each type as plain data: a text and a name as its bytes, a list as its items, and a box as what
//! it holds.
#![tactic(auto)]

pub mod arithmetic;
pub mod decl;
pub mod document;
pub mod eval_fault;
pub mod expr;
pub mod fault;
pub mod name;
pub mod param;
pub mod path;
pub mod place;
pub mod span;
pub mod stmt;
pub mod text;
pub mod text_form;
pub mod value;

pub use arithmetic::{add, div, mul, rem, sub, truth};
pub use decl::{Decl, Init, Member};
pub use document::{Document, Import};
pub use eval_fault::EvalFault;
pub use expr::{BinOp, Expr, UnOp};
pub use fault::{DocFault, LoadFault};
pub use name::Name;
pub use param::{MethodParam, SignalParam};
pub use path::Path;
pub use place::{Place, Side};
pub use span::{At, Span};
pub use stmt::{AssignOp, LocalWord, Stmt};
pub use text::Text;
pub use text_form::to_text;
pub use value::{Edge, LineRef, Value, equal};
