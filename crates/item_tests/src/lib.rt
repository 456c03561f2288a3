//! Tests of the lists of cells, the geometry and the anchors of items, the canvas and the outside.
#![tactic(auto)]

#[cfg(test)]
mod adapters;
#[cfg(test)]
mod anchoring;
#[cfg(test)]
mod cells;
#[cfg(test)]
mod drawing;
#[cfg(test)]
mod geometry;
