//! The objects that components make, with their properties, and what names stand for among them.
#![tactic(auto)]

mod changes;
pub mod context;
mod declaring;
pub mod fault;
pub mod handlers;
mod ignored;
pub mod instance;
mod listing;
mod looking;
mod making;
pub mod names;
pub mod objects;
mod places;
pub mod property;
mod reading;
mod resuming;
pub mod row;
pub mod settled;
mod taking;
mod undoing;
mod writing;

pub use context::Context;
pub use fault::MakeFault;
pub use handlers::{Body, Handler};
pub use ignored::kept_are_ignored;
pub use instance::{Feature, Instance, Layer, Object};
pub use names::Names;
pub use objects::Objects;
pub use property::{Binding, Held, Marks, Property};
pub use row::Row;
pub use settled::Settled;
