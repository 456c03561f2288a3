//! Tests of scenes, and of the nodes that stand for them.
#![tactic(auto)]

#[cfg(test)]
mod nodes;
#[cfg(test)]
mod scenes;
