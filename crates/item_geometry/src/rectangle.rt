ghost use Rattle.std.specs.Prelude.{◌≡◌, ℤ, ◌*ℤ◌, ◌<ℤ◌, pos};
ghost use Rattle.item_geometry.specs.Rectangle.{painted, bordered, part_of, colors_at, pixel_colors};

use crate::parts::{RectPart, Rects};

/// The part of this place, size and colour.
fn part(x: i32, y: i32, w: i32, h: i32, argb: u32) -> RectPart
    ensures { result ≡ part_of x y w h argb }
{
    RectPart { x, y, w, h, argb }
}

/// The five parts of a rectangle with a border that leaves an inside.
fn framed(width: i32, height: i32, fill: u32, thickness: i32, color: u32) -> Rects
    requires border { pos 0 <ℤ thickness }
    requires columns { (pos 2 *ℤ thickness) <ℤ width }
    requires rows { (pos 2 *ℤ thickness) <ℤ height }
    ensures { result ≡ bordered width height fill thickness color }
{
    let columns = width - 2 * thickness;
    let rows = height - 2 * thickness;
    Rects::Five([
        part(thickness, thickness, columns, rows, fill),
        part(0, 0, width, thickness, color),
        part(0, height - thickness, width, thickness, color),
        part(0, thickness, thickness, rows, color),
        part(width - thickness, thickness, thickness, rows, color),
    ])
}

/// What a rectangle of this width and height, in pixels, is painted as: filled with the colour `fill`,
/// within a border of a width in pixels and a colour, if it has one. With a width or height of at most
/// 0 it is nothing. A border of a width of at most 0 is none, and one that leaves no inside takes all.
pub fn rects(width: i32, height: i32, fill: u32, border: Option<(i32, u32)>) -> Rects
    ensures parts { result ≡ painted width height fill border }

    // Each pixel of the rectangle is painted once, in its colour, and no other pixel is.
    ensures pixels { (x y : ℤ) → colors_at result x y ≡ pixel_colors width height fill border x y }
{
    if width <= 0 || height <= 0 {
        return Rects::Zero;
    }
    match border {
        Some((thickness, color)) if thickness > 0 => {
            if width - thickness <= thickness || height - thickness <= thickness {
                return Rects::One(part(0, 0, width, height, color));
            }
            framed(width, height, fill, thickness, color)
        }
        _ => Rects::One(part(0, 0, width, height, fill)),
    }
}
