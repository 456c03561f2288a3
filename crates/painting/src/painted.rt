ghost use Rattle.std.specs.Prelude.{◌≡◌};
ghost use Rattle.painting.specs.Shapes.{area_of};

use item_geometry::ClipRect;

/// A rectangle of one colour, as far as it is seen. It has the columns from `left` up to but not `right`,
/// and the rows from `top` up to but not `bottom`; with none of either it is empty.
#[derive(Clone, Copy, PartialEq, Eq)]
pub struct Painted {
    /// The first column, in pixels from the window's left edge.
    pub left: i64,
    /// The first row, in pixels from the window's top edge.
    pub top: i64,
    /// The first column to the right of it.
    pub right: i64,
    /// The first row below it.
    pub bottom: i64,
    /// Its colour: alpha, red, green and blue, from the highest byte to the lowest.
    pub argb: u32,
}

impl Painted {
    /// The pixels that it has, where the window has them.
    pub fn area(&self) -> ClipRect
        ensures { result ≡ area_of self.now }
    {
        ClipRect {
            left: self.left,
            top: self.top,
            right: self.right,
            bottom: self.bottom,
        }
    }
}
