//! Values under serials that rise. A serial is given again only where it was taken back.
#![tactic(auto)]

pub mod arena;

pub use arena::Arena;
