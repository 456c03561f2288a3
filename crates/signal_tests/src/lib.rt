//! Tests of handlers: what documents note once they are started, and what signals and writes make of them.
#![tactic(auto)]

#[cfg(test)]
mod calls;
#[cfg(test)]
mod changes;
#[cfg(test)]
mod faults;
#[cfg(test)]
mod limits;
#[cfg(test)]
mod logs;
#[cfg(test)]
mod mouse;
#[cfg(test)]
mod statements;
#[cfg(test)]
mod worlds;
#[cfg(test)]
mod writes;
