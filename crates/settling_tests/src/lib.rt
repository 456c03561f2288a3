//! Tests of settling, over numbered places with small expressions.
#![tactic(auto)]

pub mod net;
#[cfg(test)]
mod rows;
