//! Tests of the crates between documents and objects: what documents declare. Nothing else stands here.
#![tactic(auto)]

#[cfg(test)]
mod compile_faults;
#[cfg(test)]
mod counts;
#[cfg(test)]
mod documents;
#[cfg(test)]
mod mentioned;
#[cfg(test)]
mod report;
