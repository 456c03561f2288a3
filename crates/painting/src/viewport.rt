use item_geometry::ClipRect;

/// Where an item's own rectangles and its children are painted.
#[derive(Clone, Copy)]
pub struct Viewport {
    /// The column of the item's left edge, in pixels from the window's left edge.
    pub left: i64,
    /// The row of the item's top edge, in pixels from the window's top edge.
    pub top: i64,
    /// What is seen there; all, where there is none.
    pub clip: Option<ClipRect>,
}
