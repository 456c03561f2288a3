//! What QML documents declare: the types that they mention, the faults of their declarations, and the
//! component types of which objects are made.
#![tactic(auto)]

pub mod compiling;
pub mod component;
pub mod content;
mod declaring;
mod document_rules;
mod features;
mod first_fault;
mod handling;
mod kinds;
pub mod known;
mod known_type;
pub mod laws;
mod member_rules;
pub mod mention;
pub mod mentioning;
mod names;
mod object_rules;
mod object_scope;
mod placing;
mod scoping;
mod sizing;
mod type_ref;

pub use compiling::compile;
pub use component::{
    Base, ComponentType, HandlerDecl, InitDecl, MethodDecl, ObjectDecl, Role, SignalDecl, Sizes,
    SlotDecl,
};
pub use known::Known;
pub use laws::first_of_all;
pub use mention::Mention;
pub use mentioning::mentions;
