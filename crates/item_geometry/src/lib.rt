//! The geometry of items: what a rectangle with a border is painted as, in which order items are
//! painted, the span that two spans take together, and the pixels that two rectangles have together.
//! Lengths and places are in pixels.
#![tactic(auto)]

pub mod clip_rect;
pub mod painting;
pub mod parts;
pub mod rectangle;
pub mod span;

pub use clip_rect::ClipRect;
pub use painting::paint_order;
pub use parts::{RectPart, Rects};
pub use rectangle::rects;
pub use span::{Overflow, Span1, union};
