//! A canvas of pixels that rectangles are painted on, written as a binary pixmap.
#![tactic(auto)]

mod area;
mod bytes;
pub mod canvas;

pub use canvas::{Canvas, clear, fill, write_ppm};
pub use item_geometry::ClipRect;
