ghost use Rattle.std.specs.Prelude.{◌≡◌, [], ◌∷◌, ◌++◌, OnOk, OnErr};

use qml_ast::Place;
use std::alloc::{AllocError, Global};
use std::marker::Model;

/// The places that were written since the last settle. Contracts see the list.
#[derive(Drop)]
pub struct Writes {
    places: Vec<Place>,
}

impl Model for Writes {
    ghost use Rattle.std.specs.Prelude.{List};
    ghost use Rattle.qml_ast.specs.declared.place.Place.{Place};

    ghost Value = { List Place };

    ghost view = { λ writes. writes.places.items };
}

impl Writes {
    /// No place. It takes no memory.
    pub fn new(alloc: Global) -> Writes
        ensures { result ≡ [] }
    {
        Writes {
            places: Vec::new(alloc),
        }
    }

    /// Puts a place at the end. The only error is that memory ran out, and then nothing has changed.
    pub fn push(&mut self, place: Place) -> Result<(), AllocError>
        ensures ok { OnOk result (self.new ≡ self.old ++ place ∷ []) }
        ensures err { OnErr result (self.new ≡ self.old) }
    {
        self.places.push(place)?;
        Ok(())
    }

    /// The places, in the order in which they were put there.
    pub fn as_slice(&self) -> &[Place]
        ensures { result.now ≡ self.now }
    {
        self.places.as_slice()
    }
}
