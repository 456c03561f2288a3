//! Tests of the loader of units, over files in memory. Nothing else stands here.
#![tactic(auto)]

#[cfg(test)]
mod kept;
#[cfg(test)]
mod limits;
#[cfg(test)]
mod lists;
#[cfg(test)]
mod store;
