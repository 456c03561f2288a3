//! Tests of the crates of the syntax, from values to printed documents. Nothing else stands here.
#![tactic(auto)]

#[cfg(test)]
mod arithmetic;
#[cfg(test)]
mod documents;
#[cfg(test)]
mod expressions;
#[cfg(test)]
mod faults;
#[cfg(test)]
mod lexing;
#[cfg(test)]
mod limits;
#[cfg(test)]
mod names;
#[cfg(test)]
mod parsing;
#[cfg(test)]
mod prints;
#[cfg(test)]
mod report;
#[cfg(test)]
mod shown;
#[cfg(test)]
mod statements;
#[cfg(test)]
mod tokens;
#[cfg(test)]
mod told;
#[cfg(test)]
mod words;
