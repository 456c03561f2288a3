//! Tests of the crates for layout, input, timers and built-in types.
#![tactic(auto)]

#[cfg(test)]
mod built_in_types;
#[cfg(test)]
mod pointer;
#[cfg(test)]
mod polishing;
#[cfg(test)]
mod rows_and_columns;
#[cfg(test)]
mod timing;
