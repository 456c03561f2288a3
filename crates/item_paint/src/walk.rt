ghost use Rattle.std.specs.Prelude.{◌≡◌, ◌++◌, OnOk, map, flat_map, take, drop};
ghost use Rattle.item_geometry.specs.Rectangle.{parts_of};
ghost use Rattle.painting.specs.Painting.{painted_part, paint_within};
ghost use Rattle.item_paint.specs.Items.{paint_of};

use crate::items::item_paint;
use item_geometry::{RectPart, Rects};
use object_tree::Objects;
use painting::{Painted, Reach};
use scene::Paint;
use std::alloc::{AllocError, Global};

/// Puts what parts of an item are painted as at the end.
fn paint_parts(reach: Reach, parts: &[RectPart], out: &mut Vec<Painted>) -> Result<(), AllocError>
    ensures { OnOk result (out.new.items ≡ out.old.items ++ map (painted_part reach.viewport) parts.now) }
{
    for part in parts {
        out.push(reach.part(*part))?;
    }
    Ok(())
}

/// Puts what an item's own rectangles are painted as at the end.
fn paint_rects(reach: Reach, rects: Rects, out: &mut Vec<Painted>) -> Result<(), AllocError>
    ensures { OnOk result (out.new.items ≡ out.old.items ++ map (painted_part reach.viewport) (parts_of rects)) }
{
    match rects {
        Rects::Zero => Ok(()),
        Rects::One(part) => {
            paint_parts(reach, &[part], out)?;
            Ok(())
        }
        Rects::Five(parts) => {
            paint_parts(reach, &parts, out)?;
            Ok(())
        }
    }
}

/// The children that come under an item's own rectangles.
fn under(item: &Paint) -> &[u64]
    ensures { result.now ≡ take item.now.under item.now.children }
{
    let children = item.children.as_slice();
    &children[..item.under.min(children.len())]
}

/// The other children.
fn over(item: &Paint) -> &[u64]
    ensures { result.now ≡ drop item.now.under item.now.children }
{
    let children = item.children.as_slice();
    &children[item.under.min(children.len())..]
}

/// Puts what an item and what is in it are painted as at the end. The only error is that memory ran out.
#[cycle(walk)]
pub(crate) fn paint_item(
    alloc: Global,
    objects: &Objects,
    reach: Reach,
    serial: u64,
    out: &mut Vec<Painted>,
) -> Result<(), AllocError>
    ensures { OnOk result (out.new.items
        ≡ out.old.items ++ paint_within reach.levels (paint_of objects.now) reach.viewport serial) }
{
    if reach.levels == 0 {
        return Ok(());
    }
    let Some(item) = item_paint(alloc, objects, serial)? else {
        return Ok(());
    };
    if !item.shown {
        return Ok(());
    }
    let inner = reach.inside(&item);
    paint_items(alloc, objects, inner, under(&item), out)?;
    paint_rects(inner, item.rects, out)?;
    paint_items(alloc, objects, inner, over(&item), out)?;
    Ok(())
}

/// Puts what items and what is in them are painted as at the end.
#[cycle(walk)]
fn paint_items(
    alloc: Global,
    objects: &Objects,
    reach: Reach,
    serials: &[u64],
    out: &mut Vec<Painted>,
) -> Result<(), AllocError>
    ensures { OnOk result (out.new.items ≡ out.old.items
        ++ flat_map (paint_within reach.levels (paint_of objects.now) reach.viewport) serials.now) }
{
    for serial in serials {
        paint_item(alloc, objects, reach, *serial, out)?;
    }
    Ok(())
}
