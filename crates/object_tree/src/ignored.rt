ghost use Rattle.std.specs.Prelude.{◌≡◌, List, IfOk, OnOk};
ghost use Rattle.qml_ast.specs.declared.place.Place.{Place};
ghost use Rattle.expr_eval.specs.Traces.{noted};
ghost use Rattle.object_tree.specs.Ignored.{was_ignored, each_once, with_ignored, KeptAreIgnored};
ghost use Rattle.object_tree.specs.Store.{Store};

use crate::objects::Objects;
use indexmap::IndexSet;
use qml_ast::Place;
use std::alloc::{AllocError, Global};

// Puts a place at the end, where it is not there already.
fn note(set: &mut IndexSet<Place>, place: Place) -> Result<(), AllocError>
    ensures { OnOk result (set.new.keys ≡ noted set.old.keys place) }
{
    set.insert(place)?;
    Ok(())
}

// The places, each at its first appearance.
fn each_once(alloc: Global, places: &[Place]) -> Result<IndexSet<Place>, AllocError>
    ensures { IfOk result (λ set. set.keys ≡ each_once places.now) }
{
    let mut set = IndexSet::new(alloc);
    for place in places {
        note(&mut set, *place)?;
    }
    Ok(set)
}

impl Objects {
    /// Whether the last settle ignored the anchor of that place.
    pub fn was_ignored(&self, place: Place) -> bool
        ensures { result ≡ was_ignored place self.now }
    {
        self.ignored.contains(&place)
    }

    /// Keeps the places of the anchors that a settle ignored, and forgets those of the settle before. The only
    /// error is that memory ran out.
    pub fn keep_ignored(&mut self, alloc: Global, places: &[Place]) -> Result<(), AllocError>
        ensures { OnOk result (self.new ≡ with_ignored places.now self.old) }
    {
        self.ignored = each_once(alloc, places)?;
        Ok(())
    }
}

/// A place was ignored exactly where it is among those that were kept.
pub fn kept_are_ignored()
    ensures { (place : Place) (places : List Place) (store : Store) → KeptAreIgnored place places store }
{}
