ghost use Rattle.std.specs.Prelude.{◌≡◌, ◌↔◌, [], length, IsTrue};

use std::alloc::Global;
use std::marker::Model;

/// The serials of an item's children, in the order of painting. Contracts see them as a list.
#[derive(Drop)]
pub struct Children {
    serials: Vec<u64>,
}

impl Model for Children {
    ghost use Rattle.std.specs.Prelude.{List, ℕ};

    ghost Value = { List ℕ };

    ghost view = { λ c. c.serials.items };
}

impl Children {
    /// No children.
    pub fn new(alloc: Global) -> Children
        ensures { result ≡ [] }
    {
        Children {
            serials: Vec::new(alloc),
        }
    }

    /// The children of these serials.
    pub fn from_vec(serials: Vec<u64>) -> Children
        ensures { result ≡ serials.items }
    {
        Children { serials }
    }

    /// The serials, without taking memory.
    pub fn into_vec(self) -> Vec<u64>
        ensures { result.items ≡ self }
    {
        let Children { serials } = self;
        serials
    }

    /// The serials.
    pub fn as_slice(&self) -> &[u64]
        ensures { result.now ≡ self.now }
    {
        &self.serials
    }

    /// How many children there are.
    pub fn len(&self) -> usize
        ensures { result ≡ length self.now }
    {
        self.serials.len()
    }

    /// Whether there are none.
    pub fn is_empty(&self) -> bool
        ensures { IsTrue result ↔ (self.now ≡ []) }
    {
        self.serials.is_empty()
    }
}
