//! Tests of settling: documents whose properties are bound to each other, and what they come to.
#![tactic(auto)]

#[cfg(test)]
mod ends;
#[cfg(test)]
mod geometry;
#[cfg(test)]
mod ignored;
#[cfg(test)]
mod makes;
#[cfg(test)]
mod settles;
#[cfg(test)]
mod steps;
#[cfg(test)]
mod writes;
