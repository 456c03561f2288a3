//! Pixels from the nodes of a scene graph.
#![tactic(auto)]

pub mod laws;
pub mod rastering;
mod walk;

pub use laws::{nodes_paint_their_scene, scene_is_on_levels, standing_nodes_are_shallow};
pub use rastering::raster;
