ghost use Rattle.std.specs.Prelude.{◌≡◌, ℤ, ◌&&◌};
ghost use Rattle.item_geometry.specs.Clip.{is_within, has_point, common};

/// A rectangle of pixels of a window. It has the columns from `left` up to but not `right`, and the
/// rows from `top` up to but not `bottom`; with none of either it is empty. It may lie outside of the
/// window in part or whole.
#[derive(Clone, Copy, PartialEq, Eq)]
pub struct ClipRect {
    /// The first column, in pixels from the window's left edge.
    pub left: i64,
    /// The first row, in pixels from the window's top edge.
    pub top: i64,
    /// The first column to the right of the rectangle.
    pub right: i64,
    /// The first row below the rectangle.
    pub bottom: i64,
}

/// Whether a place is at or after `begin`, and before `end`.
fn is_within(begin: i64, place: i64, end: i64) -> bool
    ensures { result ≡ is_within begin place end }
{
    begin <= place && place < end
}

impl ClipRect {
    /// Whether the rectangle has column `x` of row `y`.
    pub fn has_point(self, x: i64, y: i64) -> bool
        ensures { result ≡ has_point self x y }
    {
        is_within(self.left, x, self.right) && is_within(self.top, y, self.bottom)
    }

    /// The rectangle of the pixels that both have; where they have none together it is empty.
    pub fn intersection(self, other: ClipRect) -> ClipRect
        ensures edges { result ≡ common self other }
        ensures points { (x y : ℤ) → has_point result x y ≡ (has_point self x y && has_point other x y) }
    {
        ClipRect {
            left: self.left.max(other.left),
            top: self.top.max(other.top),
            right: self.right.min(other.right),
            bottom: self.bottom.min(other.bottom),
        }
    }
}
