//! The step between the application and the drawing: the nodes of a scene's changed items are brought up to
//! date, and those of items that are gone are freed.
#![tactic(auto)]

mod dirty;
mod link;
mod renew;
pub mod synced;
pub mod syncing;

pub use synced::Synced;
pub use syncing::sync;
