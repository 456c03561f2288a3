ghost use Rattle.std.specs.Prelude.{◌≡◌, ◌++◌, map, flat_map, OnOk};
ghost use Rattle.signals.specs.Noting.{loop_note, fault_note, ignored_note, file_of, with_fault_note, limited};

use crate::job::Site;
use crate::world::World;
use binding_engine::Ignored;
use object_tree::Objects;
use qml_ast::{At, EvalFault, Place};
use script_text::{LimitKind, Note, Notes};
use settling::LoopFound;
use std::alloc::AllocError;

// Notes the loop in which a place was suspended.
fn note_loop(objects: &Objects, place: Place, notes: &mut Notes) -> Result<(), AllocError>
    ensures { OnOk result (notes.new ≡ notes.old ++ loop_note objects.now place) }
{
    let Some(at) = objects.at(place) else {
        return Ok(());
    };
    let path = objects.path(place).unwrap_or("");
    notes.line(&Note::Loop(at, path))
}

/// Notes the loops of a settle.
pub(crate) fn note_loops(
    objects: &Objects,
    loops: &[LoopFound<Place>],
    notes: &mut Notes,
) -> Result<(), AllocError>
    ensures { OnOk result (notes.new ≡ notes.old ++ flat_map (loop_note objects.now) (map (λ found. found.place) loops.now)) }
{
    for found in loops {
        note_loop(objects, found.place, notes)?;
    }
    Ok(())
}

// Notes the fault of a place's expression.
fn note_fault(
    objects: &Objects,
    found: &(Place, EvalFault),
    notes: &mut Notes,
) -> Result<(), AllocError>
    ensures { OnOk result (notes.new ≡ notes.old ++ fault_note objects.now found.now) }
{
    match objects.at(found.0) {
        Some(at) => notes.line(&Note::Fault(at, found.1)),
        None => Ok(()),
    }
}

/// Notes the faults of a settle.
pub(crate) fn note_faults(
    objects: &Objects,
    faults: &[(Place, EvalFault)],
    notes: &mut Notes,
) -> Result<(), AllocError>
    ensures { OnOk result (notes.new ≡ notes.old ++ flat_map (fault_note objects.now) faults.now) }
{
    for found in faults {
        note_fault(objects, found, notes)?;
    }
    Ok(())
}

// Notes an anchor that counts for nothing, at the name of its item's type.
fn note_ignored(objects: &Objects, ignored: &Ignored, notes: &mut Notes) -> Result<(), AllocError>
    ensures { OnOk result (notes.new ≡ notes.old ++ ignored_note objects.now ignored.now) }
{
    let Some(at) = objects.type_at(ignored.place.serial) else {
        return Ok(());
    };
    let path = objects.path(ignored.place).unwrap_or("");
    if ignored.center {
        notes.line(&Note::Center(at, path))
    } else {
        notes.line(&Note::Target(at, path))
    }
}

/// Notes the anchors that count for nothing since a settle.
pub(crate) fn note_all_ignored(
    objects: &Objects,
    ignored: &[Ignored],
    notes: &mut Notes,
) -> Result<(), AllocError>
    ensures { OnOk result (notes.new ≡ notes.old ++ flat_map (ignored_note objects.now) ignored.now) }
{
    for anchor in ignored {
        note_ignored(objects, anchor, notes)?;
    }
    Ok(())
}

impl Site {
    // Where its notes stand.
    fn at(&self) -> At<'_>
        ensures { (result.file.now ≡ file_of self.now) × (result.span ≡ self.now.span) }
    {
        At {
            file: &self.component.get().file,
            span: self.span,
        }
    }
}

impl World {
    /// Notes the fault that ends a handler.
    pub(crate) fn note_end(&mut self, site: &Site, fault: EvalFault) -> Result<(), AllocError>
        ensures noted { OnOk result (self.new ≡ with_fault_note site.now fault self.old) }
        ensures left { self.new.left ≡ self.old.left }
    {
        self.notes.line(&Note::Fault(site.at(), fault))
    }

    /// Notes a limit that was met.
    pub(crate) fn note_limit(&mut self, site: &Site, limit: LimitKind) -> Result<(), AllocError>
        ensures noted { OnOk result (self.new ≡ limited site.now limit self.old) }
        ensures left { self.new.left ≡ self.old.left }
    {
        self.notes.line(&Note::Limit(site.at(), limit))
    }
}
