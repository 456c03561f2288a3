//! Tests of objects: what is made of documents, what names stand for in them, what is run of them, and what calls
//! leave, also where memory runs out.
#![tactic(auto)]

#[cfg(test)]
mod found;
#[cfg(test)]
mod looks;
#[cfg(test)]
mod makes;
#[cfg(test)]
mod runs;
#[cfg(test)]
mod steps;
#[cfg(test)]
mod store;
