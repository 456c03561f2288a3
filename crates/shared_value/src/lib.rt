//! Values with several owners, in any threads, that contracts see as the values themselves.
#![tactic(auto)]

pub mod shared;

pub use shared::Shared;
