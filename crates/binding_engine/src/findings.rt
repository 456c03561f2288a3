ghost use Rattle.std.specs.Prelude.{◌≡◌, filter, IfOk, OnOk};
ghost use Rattle.object_tree.specs.Changes.{has_changed};
ghost use Rattle.object_tree.specs.Order.{AreRising};
ghost use Rattle.object_tree.specs.Reading.{held_at};
ghost use Rattle.binding_engine.specs.Entries.{marks_in};
ghost use Rattle.binding_engine.specs.Findings.{fault_number, new_mark, with_fault, faulted_in, changed_in};
ghost use Rattle.binding_engine.specs.Standing.{kept_in};

use crate::cells::Cells;
use object_tree::Objects;
use qml_ast::{EvalFault, Place};
use std::alloc::{AllocError, Global};

// The number of a fault.
fn fault_number(fault: EvalFault) -> u8
    ensures { result ≡ fault_number fault }
{
    match fault {
        EvalFault::Overflow => 0,
        EvalFault::ZeroDivisor => 1,
        EvalFault::WrongKind => 2,
        EvalFault::UnknownName => 3,
        EvalFault::NullMember => 4,
        EvalFault::TooMuch => 5,
        EvalFault::TextTooLong => 6,
        EvalFault::ReadOnly => 7,
        EvalFault::NoMemory => 8,
    }
}

// A mark that is new or another one than before.
fn new_mark(now: Option<EvalFault>, before: Option<EvalFault>) -> Option<EvalFault>
    ensures { result ≡ new_mark now before }
{
    let now = now?;
    match before {
        Some(before) if fault_number(before) == fault_number(now) => None,
        _ => Some(now),
    }
}

// The mark of a place, where it is new or another one than before.
#[tactic(auto, using(crate::proofs::Marking::no_new_mark))]
fn new_fault(objects: &Objects, place: Place, cells: &Cells) -> Option<EvalFault>
    ensures { result ≡ new_mark (marks_in objects.now cells.now place) (kept_in (held_at place objects.now)).mark }
{
    let entry = cells.get(place)?;
    let before = match objects.held(place) {
        Some(held) => held.marks.fault,
        None => None,
    };
    new_mark(entry.last_mark(), before)
}

// Adds the fault of a place, where it is new or another one than before.
fn add_fault(
    objects: &Objects,
    place: Place,
    cells: &Cells,
    found: &mut Vec<(Place, EvalFault)>,
) -> Result<(), AllocError>
    ensures { OnOk result (found.new.items ≡ with_fault (marks_in objects.now cells.now) objects.now found.old.items place) }
{
    match new_fault(objects, place, cells) {
        Some(fault) => {
            found.push((place, fault))?;
            Ok(())
        }
        None => Ok(()),
    }
}

/// Those of the places whose mark is new or another one than before.
pub(crate) fn faulted(
    alloc: Global,
    objects: &Objects,
    places: &[Place],
    cells: &Cells,
) -> Result<Vec<(Place, EvalFault)>, AllocError>
    ensures { IfOk result (λ found. found.items ≡ faulted_in (marks_in objects.now cells.now) objects.now places.now) }
{
    let mut found = Vec::new(alloc);
    for place in places {
        add_fault(objects, *place, cells, &mut found)?;
    }
    Ok(found)
}

// Those of the places that show another value than when the last settle ended.
fn changed_among(
    alloc: Global,
    objects: &Objects,
    places: &[Place],
) -> Result<Vec<Place>, AllocError>
    ensures { IfOk result (λ found. found.items ≡ filter (λ place. has_changed place objects.now) places.now) }
{
    let mut found = Vec::new(alloc);
    for place in places {
        if objects.has_changed(*place) {
            found.push(*place)?;
        }
    }
    Ok(found)
}

/// The places that show another value than when the last settle ended.
pub(crate) fn changed(alloc: Global, objects: &Objects) -> Result<Vec<Place>, AllocError>
    ensures changed { IfOk result (λ found. found.items ≡ changed_in objects.now) }
    ensures rising { IfOk result (λ found. AreRising found.items) }
{
    let places = objects.places(alloc)?;
    let found = changed_among(alloc, objects, places.as_slice())?;
    Ok(found)
}
