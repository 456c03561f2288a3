//! Evaluation of expressions over the places of a store: the value, or the first fault, and which places
//! were read on the way. Names come from a `Reader`, and a place that has no value yet ends an evaluation
//! with a request for it.
#![tactic(auto)]

mod answer;
mod evaluation;
mod found;
mod functions;
mod globals;
pub mod laws;
mod locals;
mod members;
mod operators;
mod progress;
mod reader;
mod sense;
mod statements;
mod trace;

pub use answer::{Aim, Called, Eval};
pub use evaluation::eval;
pub use found::{Found, Frame, GlobalName, GroupName};
pub use locals::{Local, Locals, NamedLocal};
pub use reader::{Callees, Method, Reader};
pub use statements::{aim, call};
pub use trace::Trace;
