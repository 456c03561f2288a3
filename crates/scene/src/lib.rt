//! The scene that the thread of the application hands to the one that draws: what each item is painted
//! as, the keys of its nodes, and which items have changed since the nodes were last brought up to date.
#![tactic(auto)]

pub mod children;
mod items;
pub mod keys;
mod marks;
pub mod paint;
pub mod scene;

pub use children::Children;
pub use keys::{ItemKeys, RectKeys};
pub use paint::Paint;
pub use scene::Scene;
