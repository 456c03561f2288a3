//! Tests of the gate between two threads.
#![tactic(auto)]

#[cfg(test)]
mod rounds;
