use crate::children::Children;
use item_geometry::Rects;

/// What an item is painted as, beside its children. Places and lengths are in pixels.
#[derive(Drop)]
pub struct Paint {
    /// Its first column, from its parent's left edge.
    pub x: i32,
    /// Its first row, from its parent's top edge.
    pub y: i32,
    /// How many columns it has.
    pub w: i32,
    /// How many rows it has.
    pub h: i32,
    /// Whether what is in it is painted within it alone.
    pub clip: bool,
    /// Whether it is painted, with all that is in it.
    pub shown: bool,
    /// Its own rectangles.
    pub rects: Rects,
    /// Its children, in the order of painting.
    pub children: Children,
    /// How many of the children, from the first on, come under its own rectangles.
    pub under: usize,
}
