ghost use Rattle.std.specs.Prelude.{◌≡◌, Some, IfOk};
ghost use Rattle.object_tree.specs.Reading.{instance_at};
ghost use Rattle.binding_engine.specs.Equations.{has_owner, native_in, native_at, has_equation};
ghost use Rattle.binding_engine.specs.Entries.{first_entry};

use crate::cells::{Entry, Stage};
use item_equations::{Native, native_of};
use object_tree::{Instance, Objects};
use qml_ast::{Place, Side, Value};
use std::alloc::{AllocError, Global};
use type_table::is_item;

/// Whether an object owns that one. None owns the content item.
pub(crate) fn has_owner(objects: &Objects, serial: u64) -> bool
    ensures { result ≡ has_owner (instance_at serial objects.now) }
{
    match objects.instance(serial) {
        Some(instance) => instance.object.parent.is_some(),
        None => false,
    }
}

// The equation of what an item shows of a slot of that number.
fn native_in(instance: &Instance, place: Place) -> Option<Native>
    ensures { result ≡ native_in (Some instance.now) place }
{
    if is_item(instance.built_in) && place.side == Side::Shown {
        native_of(place.slot)
    } else {
        None
    }
}

/// The equation of what an item shows, if the place has one.
pub(crate) fn native_at(objects: &Objects, place: Place) -> Option<Native>
    ensures { result ≡ native_at objects.now place }
{
    objects.held(place)?;
    native_in(objects.instance(place.serial)?, place)
}

/// Whether a place is bound to an expression, or has an equation of its own. Those of the content item have none.
#[tactic(auto, unfolding(crate::specs::Equations::equation))]
pub(crate) fn has_equation(objects: &Objects, place: Place) -> bool
    ensures { result ≡ has_equation objects.now place }
{
    has_owner(objects, place.serial)
        && (objects.binding(place).is_some() || native_at(objects, place).is_some())
}

/// What a place with an expression has as a settle begins.
pub(crate) fn first_entry(
    alloc: Global,
    objects: &Objects,
    place: Place,
) -> Result<Option<Entry>, AllocError>
    ensures { IfOk result (λ entry. entry ≡ first_entry objects.now place) }
{
    if !has_equation(objects, place) {
        return Ok(None);
    }
    let Some(held) = objects.held(place) else {
        return Ok(Some(Entry {
            stage: Stage::Fresh,
            value: Value::Obj(0),
            mark: None,
        }));
    };
    let stage = if held.marks.suspended {
        Stage::Resting
    } else {
        Stage::Fresh
    };
    let value = held.value.copy(alloc)?;
    Ok(Some(Entry {
        stage,
        value,
        mark: held.marks.fault,
    }))
}
