/// A rectangle of one colour, from an item's top left corner.
#[derive(Clone, Copy, PartialEq, Eq)]
pub struct RectPart {
    /// The first column, in pixels from the item's left edge.
    pub x: i32,
    /// The first row, in pixels from the item's top edge.
    pub y: i32,
    /// How many columns it has, in pixels.
    pub w: i32,
    /// How many rows it has, in pixels.
    pub h: i32,
    /// Its colour: alpha, red, green and blue, from the highest byte to the lowest.
    pub argb: u32,
}

/// What a rectangle is painted as, in the order of painting.
#[derive(Clone, Copy, PartialEq, Eq)]
pub enum Rects {
    /// Nothing is painted.
    Zero,
    /// One colour.
    One(RectPart),
    /// The inside, and the border's top, bottom, left and right.
    Five([RectPart; 5]),
}
