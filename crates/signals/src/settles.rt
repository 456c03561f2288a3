ghost use Rattle.std.specs.Prelude.{◌≡◌, [], ◌∷◌, OnOk, IfOk};
ghost use Rattle.signals.specs.Noting.{changes_of, settled_by, with_written};
ghost use Rattle.object_tree.specs.Writing.{written};

use crate::events::add_events;
use crate::noting::{note_all_ignored, note_faults, note_loops};
use crate::world::World;
use binding_engine::Writes;
use qml_ast::{Place, Value};
use std::alloc::{AllocError, Global};

impl World {
    /// Settles the objects after these writes, with the notes and events of that. It gives the places that show
    /// another value than before.
    #[tactic(auto, unfolding(crate::specs::Noting::settled_by, crate::specs::Noting::loops_of, crate::specs::Noting::faults_of, crate::specs::Noting::ignored_of, crate::specs::Noting::changes_of))]
    pub(crate) fn settle(
        &mut self,
        alloc: Global,
        writes: &Writes,
    ) -> Result<Vec<Place>, AllocError>
        ensures settled { OnOk result (self.new ≡ settled_by writes.now self.old) }
        ensures left { self.new.left ≡ self.old.left }
        ensures changed { IfOk result (λ changed. changed.items ≡ changes_of writes.now self.old.objects) }
    {
        let settled = self.engine.settle(alloc, &mut self.objects, writes)?;
        note_loops(&self.objects, settled.loops.as_slice(), &mut self.notes)?;
        note_faults(&self.objects, settled.faulted.as_slice(), &mut self.notes)?;
        note_all_ignored(&self.objects, settled.ignored.as_slice(), &mut self.notes)?;
        add_events(&self.objects, settled.changed.as_slice(), &mut self.events)?;
        Ok(settled.changed)
    }
}

impl World {
    /// Writes a value that the slot takes as it is, and settles. It gives the places that show another value than
    /// before.
    pub(crate) fn settle_write(
        &mut self,
        alloc: Global,
        place: Place,
        value: Value,
    ) -> Result<Vec<Place>, AllocError>
        ensures settled { OnOk result (self.new ≡ settled_by (place ∷ []) (with_written place value self.old)) }
        ensures left { self.new.left ≡ self.old.left }
        ensures changed { IfOk result (λ changed. changed.items ≡ changes_of (place ∷ []) (written place value self.old.objects)) }
    {
        let mut writes = Writes::new(alloc);
        writes.push(place)?;
        self.objects.set_own(place, value);
        self.settle(alloc, &writes)
    }
}
