//! Tests of the notes of a run, as they are written.
#![tactic(auto)]

#[cfg(test)]
mod tests;
