//! Tests of the evaluation of expressions, as they stand in documents.
#![tactic(auto)]

pub mod fake;
#[cfg(test)]
mod tests;
