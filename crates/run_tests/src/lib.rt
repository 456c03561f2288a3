//! Tests of whole runs: words, script and documents in, frames, notes and a status out.
#![tactic(auto)]

#[cfg(test)]
mod documents;
#[cfg(test)]
mod given;
#[cfg(test)]
mod notes;
#[cfg(test)]
mod pictures;
#[cfg(test)]
mod statuses;
