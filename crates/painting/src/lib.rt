//! What a tree of items is painted as: rectangles of one colour, one over another, each cut to what is
//! seen of it. Places and lengths are in pixels.
#![tactic(auto)]

pub mod drawing;
pub mod laws;
pub mod painted;
pub mod reach;
pub mod viewport;

pub use drawing::{draw, drawn};
pub use laws::{clips_keep_what_is_inside, deeper_is_the_same};
pub use painted::Painted;
pub use reach::Reach;
pub use viewport::Viewport;
