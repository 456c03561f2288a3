ghost use Rattle.std.specs.Prelude.{◌≡◌, map, IfOk, OnOk, IsSortedByKey};
ghost use Rattle.settling.specs.Loops.{shown};
ghost use Rattle.binding_engine.specs.Holding.{EquationsHold, KeepsLast, AreChainsIn, AreLoopsIn, looped_in, mark_in};
ghost use Rattle.binding_engine.specs.Findings.{changed_in, faulted_in, faulted_from, places_faulted, AreLoops};
ghost use Rattle.qml_ast.specs.declared.place.Place.{Place};
ghost use Rattle.object_tree.specs.Order.{AreRising};
ghost use Rattle.object_tree.specs.Places.{places_of};
ghost use Rattle.object_tree.specs.Reading.{held_at};
ghost use Rattle.object_tree.specs.Store.{Store};
ghost use Rattle.binding_engine.specs.Ignored.{newly_ignored};
ghost use Rattle.binding_engine.specs.Entries.{at, cell_of, with_entry_of, with_entries};
ghost use Rattle.binding_engine.specs.Equations.{equated};
ghost use Rattle.binding_engine.specs.Settling.{resumed_after, resumed_by, settled_from, valued, with_cell, with_cells, settled_store, after_settle};

use crate::cells::{Cells, Entry};
use crate::findings::{changed, faulted};
use crate::ignored::{Ignored, ignored_in, newly_ignored, places_ignored};
use crate::present::Present;
use crate::writes::Writes;
use object_tree::{Marks, Objects};
use qml_ast::{EvalFault, Place, Value, equal};
use settling::{LoopFound, settle};
use std::alloc::{AllocError, Global};

/// Settles objects.
#[derive(Drop)]
pub struct Engine {}

/// What a settle found.
#[derive(Drop)]
pub struct Settled {
    /// The places that show another value than when the last settle ended, in their order. Those of objects that
    /// were made since are not among them.
    pub changed: Vec<Place>,
    /// The loops, in the order of their places.
    pub loops: Vec<LoopFound<Place>>,
    /// The places whose expression faults with another fault than before, or now and not before, in their order.
    pub faulted: Vec<(Place, EvalFault)>,
    /// The anchors that count for nothing and that the settle before did not ignore, in the order of their places.
    pub ignored: Vec<Ignored>,
}

/// What a settle of the places found, before the anchors are looked at.
#[derive(Drop)]
struct Found {
    changed: Vec<Place>,
    loops: Vec<LoopFound<Place>>,
    faulted: Vec<(Place, EvalFault)>,
}

/// How places stand once they are settled.
#[derive(Drop)]
struct Stood {
    places: Vec<Place>,
    cells: Cells,
    loops: Vec<LoopFound<Place>>,
}

// Settles the places of objects, and leaves the objects as they are.
fn stand(alloc: Global, objects: &Objects) -> Result<Stood, AllocError>
    ensures places { IfOk result (λ stood. stood.places.items ≡ equated objects.now) }
    ensures stands { IfOk result (λ stood. (p : Place) → at (objects.now, stood.cells) p ≡ settled_from objects.now p) }
    ensures rising { OnOk result (AreRising (places_of objects.now)) }
    ensures loops { IfOk result (λ stood. AreLoops objects.now (map shown stood.loops.items)) }
    ensures ordered { IfOk result (λ stood. IsSortedByKey (λ found. found.place) ⟦<Place as Ord>⟧.cmp stood.loops.items) }
{
    let mut present = Present::new(alloc, objects)?;
    let loops = settle(alloc, &mut present)?;
    let Present { places, cells, .. } = present;
    Ok(Stood {
        places,
        cells,
        loops,
    })
}

// Resumes the places of a written object.
#[tactic(auto, unfolding(crate::specs::Settling::resumed_after))]
fn resume(objects: &mut Objects, place: Place)
    ensures { objects.new ≡ resumed_after objects.old place }
{
    objects.resume(place.serial);
}

// Resumes the places of each written object.
fn resume_all(objects: &mut Objects, writes: &[Place])
    ensures { objects.new ≡ resumed_by writes.now objects.old }
{
    for place in writes {
        resume(objects, *place);
    }
}

// Keeps the value of a place, where it is another one.
fn keep(alloc: Global, objects: &mut Objects, place: Place, value: &Value) -> Result<(), AllocError>
    ensures { OnOk result (objects.new ≡ valued (held_at place objects.old) place value.now objects.old) }
{
    let Some(held) = objects.held(place) else {
        return Ok(());
    };
    if equal(&held.value, value) {
        return Ok(());
    }
    let kept = value.copy(alloc)?;
    objects.keep(place, kept);
    Ok(())
}

// Writes what a place has.
#[tactic(auto, using(crate::proofs::Written::entry_cell))]
fn write(
    alloc: Global,
    objects: &mut Objects,
    place: Place,
    entry: &Entry,
) -> Result<(), AllocError>
    ensures { OnOk result (objects.new ≡ with_cell place (cell_of entry.now) objects.old) }
{
    keep(alloc, objects, place, &entry.value)?;
    let suspended = entry.is_stopped();
    let fault = entry.last_mark();
    objects.set_marks(place, Marks { suspended, fault });
    Ok(())
}

// Writes what a place has, if it has an expression.
fn write_at(
    alloc: Global,
    objects: &mut Objects,
    place: Place,
    cells: &Cells,
) -> Result<(), AllocError>
    ensures { OnOk result (objects.new ≡ with_entry_of cells.now objects.old place) }
{
    match cells.get(place) {
        Some(entry) => write(alloc, objects, place, entry),
        None => Ok(()),
    }
}

// Writes what these places have.
fn write_all(
    alloc: Global,
    objects: &mut Objects,
    places: &[Place],
    cells: &Cells,
) -> Result<(), AllocError>
    ensures { OnOk result (objects.new ≡ with_entries cells.now places.now objects.old) }
{
    for place in places {
        write_at(alloc, objects, *place, cells)?;
    }
    Ok(())
}

// Settles the places of objects.
fn settle_all(alloc: Global, objects: &mut Objects) -> Result<Found, AllocError>
    ensures store { OnOk result (objects.new ≡ settled_store objects.old) }
    ensures changed { IfOk result (λ settled. settled.changed.items ≡ changed_in objects.new) }
    ensures faulted { IfOk result (λ settled. settled.faulted.items ≡ faulted_from objects.old) }
    ensures changed_rise { IfOk result (λ settled. AreRising settled.changed.items) }
    ensures faulted_rise { IfOk result (λ settled. AreRising (places_faulted settled.faulted.items)) }
    ensures rising { OnOk result (AreRising (places_of objects.old)) }
    ensures loops { IfOk result (λ settled. AreLoops objects.old (map shown settled.loops.items)) }
    ensures ordered { IfOk result (λ settled. IsSortedByKey (λ found. found.place) ⟦<Place as Ord>⟧.cmp settled.loops.items) }
{
    let Stood {
        places,
        cells,
        loops,
    } = stand(alloc, objects)?;
    let faulted = faulted(alloc, objects, places.as_slice(), &cells)?;
    write_all(alloc, objects, places.as_slice(), &cells)?;
    let changed = changed(alloc, objects)?;
    Ok(Found {
        changed,
        loops,
        faulted,
    })
}

impl Engine {
    /// An engine that has settled nothing.
    pub fn new() -> Engine {
        Engine {}
    }

    /// Brings all places of objects up to date after writes to these places (Qt 5 QML Reference, Property
    /// Binding; which place of a loop is stopped, and that a write to an object resumes its places, are this
    /// engine's own rules).
    ///
    /// The places of the written objects that loops had stopped are resumed. Then all places with an expression
    /// are visited in their order, each after what its expression reads. A place that is read while its evaluation
    /// is under way gives its last value, and is suspended when control returns to it. One whose expression
    /// faults is marked, and keeps its last value. What is then settled decides which anchors count for nothing.
    ///
    /// Its only error is that memory ran out. Nothing is then said of the objects.
    pub fn settle(
        &mut self,
        alloc: Global,
        objects: &mut Objects,
        writes: &Writes,
    ) -> Result<Settled, AllocError>
        ensures store { OnOk result (objects.new ≡ after_settle writes.now objects.old) }
        ensures holds { OnOk result (EquationsHold objects.new) }
        ensures keeps { OnOk result (KeepsLast (resumed_by writes.now objects.old) objects.new) }
        ensures changed { IfOk result (λ settled. settled.changed.items ≡ changed_in (settled_store (resumed_by writes.now objects.old))) }
        ensures faulted { IfOk result (λ settled. settled.faulted.items ≡ faulted_in (mark_in objects.new) (resumed_by writes.now objects.old) (equated (resumed_by writes.now objects.old))) }
        ensures ignored { IfOk result (λ settled. settled.ignored.items ≡ newly_ignored (settled_store (resumed_by writes.now objects.old))) }
        ensures changed_rise { IfOk result (λ settled. AreRising settled.changed.items) }
        ensures faulted_rise { IfOk result (λ settled. AreRising (places_faulted settled.faulted.items)) }
        ensures loops { IfOk result (λ settled. AreLoopsIn (resumed_by writes.now objects.old) objects.new (map shown settled.loops.items)) }
        ensures looped { IfOk result (λ settled. map (λ found. found.place) settled.loops.items ≡ looped_in (resumed_by writes.now objects.old) objects.new) }
        ensures chains { IfOk result (λ settled. AreChainsIn objects.new (map shown settled.loops.items)) }
        ensures ordered { IfOk result (λ settled. IsSortedByKey (λ found. found.place) ⟦<Place as Ord>⟧.cmp settled.loops.items) }
    {
        resume_all(objects, writes.as_slice());
        let settled = settle_all(alloc, objects)?;
        let all = ignored_in(alloc, objects)?;
        let ignored = newly_ignored(alloc, objects, all.as_slice())?;
        let places = places_ignored(alloc, all.as_slice())?;
        objects.end_settle();
        objects.keep_ignored(alloc, places.as_slice())?;
        Ok(Settled {
            changed: settled.changed,
            loops: settled.loops,
            faulted: settled.faulted,
            ignored,
        })
    }
}
