//! Tests of syncs, and of what is drawn of the nodes then.
#![tactic(auto)]

#[cfg(test)]
mod drawings;
#[cfg(test)]
mod pixels;
pub mod stage;
#[cfg(test)]
mod syncs;
