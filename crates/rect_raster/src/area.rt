ghost use Rattle.std.specs.Prelude.{◌≡◌, ℕ, ◌<◌, ◌≤◌, pos, int_le, nat_le};
ghost use Rattle.rect_raster.specs.Drawing.{covers};
ghost use Rattle.rect_raster.specs.Bytes.{has_pixel};

use item_geometry::ClipRect;

/// A part of a canvas, in pixels; with no column or no row it is empty.
#[derive(Clone, Copy)]
pub(crate) struct Area {
    pub(crate) left: usize,
    pub(crate) top: usize,
    pub(crate) right: usize,
    pub(crate) bottom: usize,
}

/// The first place from 0 to `size` at or after `edge`, or `size`.
fn clamped(edge: i64, size: u32) -> usize
    ensures bound { result ≤ size }
    ensures edge { (place : ℕ) → place < size → int_le edge (pos place) ≡ nat_le result place }
{
    if edge <= 0 {
        0
    } else {
        (edge as u64).min(size as u64) as usize
    }
}

/// What a canvas of this size has of a rectangle.
pub(crate) fn clipped(rect: ClipRect, width: u32, height: u32) -> Area
    ensures columns { result.left ≤ result.right }
    ensures rows { result.top ≤ result.bottom }
    ensures within_width { result.right ≤ width }
    ensures within_height { result.bottom ≤ height }

    // It has the same pixels of the canvas as the rectangle.
    ensures pixels { (column row : ℕ) → column < width → row < height
        → covers rect column row ≡ has_pixel result column row }
{
    let left = clamped(rect.left, width);
    let top = clamped(rect.top, height);
    Area {
        left,
        top,
        right: clamped(rect.right, width).max(left),
        bottom: clamped(rect.bottom, height).max(top),
    }
}
