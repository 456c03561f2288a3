ghost use Rattle.std.specs.Prelude.{◌≡◌, IfOk, map, slice_index_or};
ghost use Rattle.item_paint.specs.Items.{is_in, items_in, z_of, in_order, count_under};

use crate::values::shown_int;
use item_geometry::paint_order;
use object_tree::Objects;
use scene::Children;
use std::alloc::{AllocError, Global};
use type_table::item_slots::Z;

/// The items in an item, in the order of painting.
#[derive(Drop)]
pub(crate) struct Siblings {
    pub(crate) children: Children,
    /// How many of them come under the item's own rectangles.
    pub(crate) under: usize,
}

/// Whether an object is an item that stands in another one as a visual child.
fn is_in(objects: &Objects, parent: u64, serial: u64) -> bool
    ensures { result ≡ is_in objects.now parent serial }
{
    match objects.item_parent(serial) {
        Some(item) => item == parent,
        None => false,
    }
}

/// The items that stand in an item, of those that it owns.
fn items_in(
    alloc: Global,
    objects: &Objects,
    parent: u64,
    owned: &[u64],
) -> Result<Vec<u64>, AllocError>
    ensures { IfOk result (λ items. items.items ≡ items_in objects.now parent owned.now) }
{
    owned
        .iter()
        .copied()
        .filter(|serial| is_in(objects, parent, *serial))
        .collect(alloc)
}

/// The z of items.
fn zs_of(alloc: Global, objects: &Objects, items: &[u64]) -> Result<Vec<i32>, AllocError>
    ensures { IfOk result (λ zs. zs.items ≡ map (z_of objects.now) items.now) }
{
    items
        .iter()
        .map(|serial| shown_int(objects, *serial, Z))
        .collect(alloc)
}

/// The items of these places.
fn at_places(alloc: Global, items: &[u64], places: &[usize]) -> Result<Vec<u64>, AllocError>
    ensures { IfOk result (λ found. found.items ≡ map (λ place. slice_index_or items.now place 0) places.now) }
{
    places
        .iter()
        .map(|place| items.get(*place).copied().unwrap_or(0))
        .collect(alloc)
}

/// The items in an item, of the objects that it owns. The only error is that memory ran out.
pub(crate) fn ordered(
    alloc: Global,
    objects: &Objects,
    parent: u64,
    owned: &[u64],
) -> Result<Siblings, AllocError>
    ensures children { IfOk result (λ ordered.
        ordered.children ≡ in_order objects.now (items_in objects.now parent owned.now)) }
    ensures under { IfOk result (λ ordered.
        ordered.under ≡ count_under objects.now (items_in objects.now parent owned.now)) }
{
    let items = items_in(alloc, objects, parent, owned)?;
    let zs = zs_of(alloc, objects, &items)?;
    let mut places = Vec::new(alloc);
    let under = paint_order(&zs, &mut places)?;
    let serials = at_places(alloc, &items, &places)?;
    Ok(Siblings {
        children: Children::from_vec(serials),
        under,
    })
}
