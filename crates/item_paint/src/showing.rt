ghost use Rattle.std.specs.Prelude.{◌≡◌, ◌++◌, OnOk, IfOk};
ghost use Rattle.rect_raster.specs.Picture.{ppm};
ghost use Rattle.painting.specs.Painting.{paint, picture, frame};
ghost use Rattle.item_paint.specs.Items.{paint_of};

use crate::walk::paint_item;
use object_tree::Objects;
use painting::{Painted, Reach, drawn};
use rect_raster::Canvas;
use std::alloc::{AllocError, Global};

/// The serial of the item in which the root of the main document stands.
pub const CONTENT_ITEM: u64 = 1;

/// Puts what the items of a store are painted as at the end, from the first rectangle to the last.
///
/// # Errors
///
/// Memory ran out.
pub fn paint_list(
    alloc: Global,
    objects: &Objects,
    out: &mut Vec<Painted>,
) -> Result<(), AllocError>
    ensures { OnOk result (out.new.items ≡ out.old.items ++ paint (paint_of objects.now) CONTENT_ITEM) }
{
    paint_item(alloc, objects, Reach::window(), CONTENT_ITEM, out)?;
    Ok(())
}

/// What a window of `width` times `height` pixels shows of the items of a store.
///
/// # Errors
///
/// Memory ran out, or the pixels take more bytes than a `usize` counts.
pub fn picture(
    alloc: Global,
    objects: &Objects,
    width: u32,
    height: u32,
) -> Result<Canvas, AllocError>
    ensures pixels { IfOk result (λ canvas.
        canvas ≡ picture (paint_of objects.now) CONTENT_ITEM width height) }

    // What is written of the canvas as a binary pixmap.
    ensures bytes { IfOk result (λ canvas.
        ppm canvas ≡ frame (paint_of objects.now) CONTENT_ITEM width height) }
{
    let mut list = Vec::new(alloc);
    paint_list(alloc, objects, &mut list)?;
    drawn(alloc, &list, width, height)
}
