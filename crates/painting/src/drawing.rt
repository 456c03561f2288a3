ghost use Rattle.std.specs.Prelude.{◌≡◌, ℕ, List, ◌++◌, IfOk};
ghost use Rattle.rect_raster.specs.Drawing.{Shape, drawing};
ghost use Rattle.painting.specs.Shapes.{shapes};

use crate::painted::Painted;
use rect_raster::{Canvas, fill};
use std::alloc::{AllocError, Global};

/// Paints rectangles on a canvas in order, each with its colour over what the canvas shows then.
pub fn draw(canvas: &mut Canvas, list: &[Painted])
    // Whatever shapes the canvas showed before, it shows those and then these.
    ensures { (width height : ℕ) (before : List Shape) → canvas.old ≡ drawing width height before
        → canvas.new ≡ drawing width height (before ++ shapes list.now) }
{
    for painted in list {
        fill(canvas, painted.area(), painted.argb);
    }
}

/// A canvas of `width` times `height` pixels on which the rectangles are painted in order, over white.
///
/// # Errors
///
/// Memory ran out, or the pixels take more bytes than a `usize` counts.
pub fn drawn(alloc: Global, list: &[Painted], width: u32, height: u32) -> Result<Canvas, AllocError>
    ensures { IfOk result (λ canvas. canvas ≡ drawing width height (shapes list.now)) }
{
    let mut canvas = Canvas::new(alloc, width, height)?;
    draw(&mut canvas, list);
    Ok(canvas)
}
