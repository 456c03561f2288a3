ghost use Rattle.std.specs.Prelude.{◌≡◌, [], ◌++◌, OnOk, IfOk, flat_map, filter, not};
ghost use Rattle.object_tree.specs.Ignored.{was_ignored};
ghost use Rattle.object_tree.specs.Reading.{instance_at};
ghost use Rattle.item_equations.specs.Ignored.{neglect_of};
ghost use Rattle.binding_engine.specs.Equations.{family_of};
ghost use Rattle.binding_engine.specs.Ignored.{read_in, is_center, ignored_for, is_of_item, ignored_at, listed, ignored_in, newly_ignored, places_ignored};

use crate::present::Present;
use item_equations::{Neglect, is_anchor, neglect_of};
use object_tree::Objects;
use qml_ast::{Place, Side};
use std::alloc::{AllocError, Global};
use type_table::is_item;

/// An anchor that counts for nothing.
#[derive(Clone, Copy)]
pub struct Ignored {
    pub place: Place,
    /// Whether it is a centre line beside both other lines of its axis. Else what it names is neither the item's
    /// parent nor a sibling, or is a line of the other axis.
    pub center: bool,
}

fn ignored_for(place: Place, neglect: Neglect) -> Ignored
    ensures { result ≡ ignored_for place neglect }
{
    Ignored {
        place,
        center: match neglect {
            Neglect::Target => false,
            Neglect::Center => true,
        },
    }
}

fn is_of_item(objects: &Objects, serial: u64) -> bool
    ensures { result ≡ is_of_item (instance_at serial objects.now) }
{
    match objects.instance(serial) {
        Some(instance) => is_item(instance.built_in),
        None => false,
    }
}

// Why the anchor of an item counts for nothing, if it does.
fn neglect_at(present: &Present, item: u64, slot: u32) -> Option<Neglect>
    requires { present.now.cells ≡ [] }
    ensures { result ≡ neglect_of (family_of present.now.objects.now) (read_in present.now.objects.now) item slot }
{
    neglect_of(present, item, slot)
}

// The anchor of that place, if it counts for nothing.
#[tactic(auto, unfolding(crate::specs::Ignored::ignored_at))]
fn ignored_at(present: &Present, place: Place) -> Option<Ignored>
    requires { present.now.cells ≡ [] }
    ensures { result ≡ ignored_at present.now.objects.now place }
{
    if place.side != Side::Shown || !is_anchor(place.slot) {
        return None;
    }
    if !is_of_item(present.objects, place.serial) {
        return None;
    }
    match neglect_at(present, place.serial, place.slot) {
        Some(neglect) => Some(ignored_for(place, neglect)),
        None => None,
    }
}

// Adds the anchor of a place, if it counts for nothing.
fn add_ignored(present: &Present, place: Place, found: &mut Vec<Ignored>) -> Result<(), AllocError>
    requires { present.now.cells ≡ [] }
    ensures { OnOk result (found.new.items ≡ found.old.items ++ listed (ignored_at present.now.objects.now place)) }
{
    match ignored_at(present, place) {
        Some(ignored) => {
            found.push(ignored)?;
            Ok(())
        }
        None => Ok(()),
    }
}

// Those of these places' anchors that count for nothing.
fn ignored_among(
    alloc: Global,
    present: &Present,
    places: &[Place],
) -> Result<Vec<Ignored>, AllocError>
    requires { present.now.cells ≡ [] }
    ensures { IfOk result (λ found. found.items ≡ flat_map (λ place. listed (ignored_at present.now.objects.now place)) places.now) }
{
    let mut found = Vec::new(alloc);
    for place in places {
        add_ignored(present, *place, &mut found)?;
    }
    Ok(found)
}

/// The anchors that count for nothing, in the order of their places. The only error is that memory ran out.
pub(crate) fn ignored_in(alloc: Global, objects: &Objects) -> Result<Vec<Ignored>, AllocError>
    ensures { IfOk result (λ found. found.items ≡ ignored_in objects.now) }
{
    let places = objects.places(alloc)?;
    let present = Present::at_rest(alloc, objects);
    ignored_among(alloc, &present, places.as_slice())
}

/// Those of these anchors that the settle before did not ignore.
pub(crate) fn newly_ignored(
    alloc: Global,
    objects: &Objects,
    ignored: &[Ignored],
) -> Result<Vec<Ignored>, AllocError>
    ensures { IfOk result (λ found. found.items ≡ filter (λ ignored. not (was_ignored ignored.place objects.now)) ignored.now) }
{
    ignored
        .iter()
        .copied()
        .filter(|ignored| !objects.was_ignored(ignored.place))
        .collect(alloc)
}

/// The places of anchors.
pub(crate) fn places_ignored(alloc: Global, ignored: &[Ignored]) -> Result<Vec<Place>, AllocError>
    ensures { IfOk result (λ places. places.items ≡ places_ignored ignored.now) }
{
    ignored.iter().map(|ignored| ignored.place).collect(alloc)
}
