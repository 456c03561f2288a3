ghost use Rattle.std.specs.Prelude.{◌≡◌, IfOk, Some, option_copied};
ghost use Rattle.item_paint.specs.Items.{own_rects, border_of, paint_of, paint_of_item};

use crate::children::ordered;
use crate::rectangle_slots::{BORDER_COLOR, BORDER_WIDTH, COLOR};
use crate::values::{is_given, shown_bool, shown_color, shown_int};
use item_geometry::{Rects, rects};
use object_tree::{Instance, Objects};
use scene::Paint;
use std::alloc::{AllocError, Global};
use type_table::item_slots::{CLIP, HEIGHT, VISIBLE, WIDTH, X, Y};
use type_table::{BuiltIn, is_item};

/// The width and the colour of a Rectangle's border, if its group was named.
fn border_of(objects: &Objects, serial: u64) -> Option<(i32, u32)>
    ensures { result ≡ border_of objects.now serial }
{
    if is_given(objects, serial, BORDER_WIDTH) || is_given(objects, serial, BORDER_COLOR) {
        let width = shown_int(objects, serial, BORDER_WIDTH);
        Some((width, shown_color(objects, serial, BORDER_COLOR)))
    } else {
        None
    }
}

/// The rectangles of an object of that type itself.
fn own_rects(built_in: BuiltIn, objects: &Objects, serial: u64) -> Rects
    ensures { result ≡ own_rects built_in objects.now serial }
{
    match built_in {
        BuiltIn::Rectangle => {
            let width = shown_int(objects, serial, WIDTH);
            let height = shown_int(objects, serial, HEIGHT);
            let color = shown_color(objects, serial, COLOR);
            rects(width, height, color, border_of(objects, serial))
        }
        _ => Rects::Zero,
    }
}

/// What an item is painted as.
fn paint_of_item(
    alloc: Global,
    objects: &Objects,
    serial: u64,
    instance: &Instance,
) -> Result<Paint, AllocError>
    ensures { IfOk result (λ paint. paint ≡ paint_of_item objects.now serial instance.now) }
{
    let ordered = ordered(alloc, objects, serial, instance.children.as_slice())?;
    Ok(Paint {
        x: shown_int(objects, serial, X),
        y: shown_int(objects, serial, Y),
        w: shown_int(objects, serial, WIDTH),
        h: shown_int(objects, serial, HEIGHT),
        clip: shown_bool(objects, serial, CLIP),
        shown: shown_bool(objects, serial, VISIBLE),
        rects: own_rects(instance.built_in, objects, serial),
        children: ordered.children,
        under: ordered.under,
    })
}

/// What the item of that serial is painted as, by the values that its slots show: where it stands, its size,
/// whether it clips and is shown, its own rectangles, and the items in it in the order of painting. None
/// where there is no live item of that serial.
///
/// # Errors
///
/// Memory ran out.
#[tactic(auto, unfolding(crate::specs::Items::paint_of))]
pub fn item_paint(
    alloc: Global,
    objects: &Objects,
    serial: u64,
) -> Result<Option<Paint>, AllocError>
    ensures { IfOk result (λ paint. paint ≡ paint_of objects.now serial) }
{
    let Some(instance) = objects.instance(serial) else {
        return Ok(None);
    };
    if !is_item(instance.built_in) {
        return Ok(None);
    }
    Ok(Some(paint_of_item(alloc, objects, serial, instance)?))
}
