ghost use Rattle.std.specs.Prelude.{◌≡◌, ◌==◌, [], length, OnOk, OnErr};
ghost use Rattle.expr_eval.specs.Traces.{noted};

use indexmap::IndexSet;
use qml_ast::Place;
use std::alloc::{AllocError, Global};
use std::marker::Model;

/// The places that were read, in the order of their first reads. Contracts see the list. Whether a place
/// is among them is found without going through them.
#[derive(Drop)]
pub struct Trace {
    places: IndexSet<Place>,
}

impl Model for Trace {
    ghost use Rattle.std.specs.Prelude.{List};
    ghost use Rattle.qml_ast.specs.declared.place.Place.{Place};

    ghost Value = { List Place };

    ghost view = { λ trace. trace.places.keys };
}

impl Trace {
    /// No place yet. It takes no memory.
    pub fn new(alloc: Global) -> Trace
        ensures { result ≡ [] }
    {
        Trace {
            places: IndexSet::new(alloc),
        }
    }

    /// How many places were read.
    pub fn len(&self) -> usize
        ensures { result ≡ length self.now }
    {
        self.places.as_slice().len()
    }

    /// Whether no place was read.
    pub fn is_empty(&self) -> bool
        ensures { result ≡ (length self.now == 0) }
    {
        self.len() == 0
    }

    /// The places, in the order of their first reads.
    pub fn as_slice(&self) -> &[Place]
        ensures { result.now ≡ self.now }
    {
        self.places.as_slice()
    }

    /// Forgets all places, and keeps the memory.
    pub fn clear(&mut self)
        ensures { self.new ≡ [] }
    {
        self.places.clear();
    }

    /// Puts a place at the end, where it is not in the trace already.
    pub(crate) fn note(&mut self, place: Place) -> Result<(), AllocError>
        ensures ok { OnOk result (self.new ≡ noted self.old place) }
        ensures err { OnErr result (self.new ≡ self.old) }
    {
        self.places.insert(place)?;
        Ok(())
    }
}
