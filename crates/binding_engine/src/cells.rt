ghost use Rattle.std.specs.Prelude.{◌≡◌, [], None, option_copied, OnOk};
ghost use Rattle.expr_eval.specs.Traces.{are_same};
ghost use Rattle.indexmap.specs.IndexMap.{insert_entry};
ghost use Rattle.settling.specs.Cells.{mark_of};
ghost use Rattle.settling.specs.Phases.{phase_of};
ghost use Rattle.binding_engine.specs.Entries.{entry_at, with_entry, entry_with, staged, failed, cell_of};
ghost use Rattle.binding_engine.specs.declared.cells.Stage.TheVariants.{UnderWay, Stopped, Suspended, Marked};
ghost use Rattle.binding_engine.specs.Settling.{is_stopped};

use indexmap::IndexMap;
use qml_ast::{EvalFault, Place, Value};
use settling::Phase;
use std::alloc::{AllocError, Global};
use std::marker::Model;
use std::mem;

/// How far a place has come within a settle.
#[derive(Clone, Copy)]
pub(crate) enum Stage {
    /// It stands suspended from before.
    Resting,
    /// It wasn't visited so far.
    Fresh,
    UnderWay,
    /// It was read while its evaluation was under way.
    Stopped,
    /// It has the value of its expression.
    Active,
    /// Its expression has that fault.
    Marked(EvalFault),
    /// Its evaluation was stopped.
    Suspended,
}

/// What a place with an expression has within a settle.
#[derive(Drop)]
pub(crate) struct Entry {
    pub(crate) stage: Stage,
    /// The last value until there is another one.
    pub(crate) value: Value,
    /// The mark of the last fault as the settle began.
    pub(crate) mark: Option<EvalFault>,
}

impl Entry {
    pub(crate) fn phase(&self) -> Phase
        ensures { result ≡ phase_of (cell_of self.now) }
    {
        match self.stage {
            Stage::Fresh => Phase::Fresh,
            Stage::UnderWay => Phase::UnderWay,
            Stage::Stopped => Phase::Stopped,
            Stage::Resting | Stage::Active | Stage::Marked(_) | Stage::Suspended => Phase::Done,
        }
    }

    /// The mark of the last fault.
    pub(crate) fn last_mark(&self) -> Option<EvalFault>
        ensures { result ≡ mark_of (cell_of self.now) }
    {
        match self.stage {
            Stage::Active => None,
            Stage::Marked(fault) => Some(fault),
            Stage::Resting | Stage::Fresh | Stage::UnderWay | Stage::Stopped | Stage::Suspended =>
                self.mark,
        }
    }

    // Has another entry's parts from now on.
    fn replace(&mut self, entry: Entry)
        ensures { self.new ≡ entry }
    {
        *self = entry;
    }

    fn begin(&mut self)
        ensures { self.new ≡ entry_with UnderWay self.old.value self.old.mark }
    {
        self.stage = Stage::UnderWay;
    }

    fn stop(&mut self)
        ensures { self.new ≡ entry_with Stopped self.old.value self.old.mark }
    {
        self.stage = Stage::Stopped;
    }

    fn suspend(&mut self)
        ensures { self.new ≡ entry_with Suspended self.old.value self.old.mark }
    {
        self.stage = Stage::Suspended;
    }

    // Has the fault of its expression, and keeps its value.
    fn fail(&mut self, fault: EvalFault)
        ensures { self.new ≡ entry_with (Marked fault) self.old.value None }
    {
        self.stage = Stage::Marked(fault);
        self.mark = None;
    }

    /// Whether its evaluation was stopped, now or before.
    pub(crate) fn is_stopped(&self) -> bool
        ensures { result ≡ is_stopped (cell_of self.now) }
    {
        matches!(self.stage, Stage::Resting | Stage::Suspended)
    }
}

/// Entries under their places, in the order in which they were put there. Contracts see the list.
#[derive(Drop)]
pub(crate) struct Cells {
    entries: IndexMap<Place, Entry>,
}

impl Model for Cells {
    ghost use Rattle.std.specs.Prelude.{List};
    ghost use Rattle.qml_ast.specs.declared.place.Place.{Place};
    ghost use Rattle.binding_engine.specs.declared.cells.Entry.{Entry};

    ghost Value = { List (Place × Entry) };

    ghost view = { λ cells. cells.entries.entries };
}

impl Cells {
    /// No entry. It takes no memory.
    pub(crate) fn new(alloc: Global) -> Cells
        ensures { result ≡ [] }
    {
        Cells {
            entries: IndexMap::new(alloc),
        }
    }

    /// The entry of a place.
    pub(crate) fn get(&self, place: Place) -> Option<&Entry>
        ensures { option_copied result ≡ entry_at place self.now }
    {
        self.entries.get(&place)
    }

    /// Puts an entry at the end, or in the place of the one that is there.
    pub(crate) fn insert(&mut self, place: Place, entry: Entry) -> Result<(), AllocError>
        ensures { OnOk result (self.new ≡ insert_entry are_same self.old place entry) }
    {
        self.entries.insert(place, entry)?;
        Ok(())
    }

    /// Puts an entry in the place of the one that is there. Where there is none, nothing changes.
    #[tactic(auto, using(crate::proofs::Moves::not_set))]
    pub(crate) fn put(&mut self, place: Place, entry: Entry)
        ensures { self.new ≡ with_entry place entry self.old }
    {
        match self.entries.get_mut(&place) {
            Some(present) => present.replace(entry),
            None => mem::drop(entry),
        }
    }

    /// The evaluation of a place is under way from now on. Where there is no entry, nothing changes.
    pub(crate) fn begin(&mut self, place: Place)
        ensures { self.new ≡ staged place UnderWay self.old }
    {
        match self.entries.get_mut(&place) {
            Some(present) => present.begin(),
            None => (),
        }
    }

    /// A place was read while its evaluation was under way. Where there is no entry, nothing changes.
    pub(crate) fn stop(&mut self, place: Place)
        ensures { self.new ≡ staged place Stopped self.old }
    {
        match self.entries.get_mut(&place) {
            Some(present) => present.stop(),
            None => (),
        }
    }

    /// The evaluation of a place is given up. Where there is no entry, nothing changes.
    pub(crate) fn suspend(&mut self, place: Place)
        ensures { self.new ≡ staged place Suspended self.old }
    {
        match self.entries.get_mut(&place) {
            Some(present) => present.suspend(),
            None => (),
        }
    }

    /// Marks an entry with the fault of its expression. Where there is none, nothing changes.
    pub(crate) fn fail(&mut self, place: Place, fault: EvalFault)
        ensures { self.new ≡ failed place fault self.old }
    {
        match self.entries.get_mut(&place) {
            Some(present) => present.fail(fault),
            None => (),
        }
    }
}
