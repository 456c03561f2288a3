//! Tests of painting: what windows show of items, and what lists of rectangles draw.
#![tactic(auto)]

#[cfg(test)]
mod cases;
#[cfg(test)]
mod depth;
#[cfg(test)]
mod lists;
#[cfg(test)]
mod makes;
#[cfg(test)]
mod pixels;
