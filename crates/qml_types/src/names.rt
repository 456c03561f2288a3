ghost use Rattle.std.specs.Prelude.{◌≡◌, [], not, IfOk, OnOk};
ghost use Rattle.qml_types.specs.Rules.{among, with_name};

use indexmap::IndexSet;
use std::alloc::{AllocError, Global};
use std::marker::Model;

/// Names that were given, in the order in which they came.
#[derive(Drop)]
pub struct Names {
    texts: IndexSet<String>,
}

impl Model for Names {
    ghost use Rattle.std.specs.Prelude.{ℕ, List, map};
    ghost use Rattle.std.specs.String.{string_bytes};

    ghost Value = { List (List ℕ) };

    ghost view = { λ names. map string_bytes names.texts.keys };
}

impl Names {
    pub fn new(alloc: Global) -> Names
        ensures { result ≡ [] }
    {
        Names {
            texts: IndexSet::new(alloc),
        }
    }

    /// Adds the name, and says whether it was not there.
    pub fn add(&mut self, alloc: Global, name: &str) -> Result<bool, AllocError>
        ensures fresh { IfOk result (λ fresh. fresh ≡ not (among self.old name.now)) }
        ensures added { OnOk result (self.new ≡ with_name self.old name.now) }
    {
        let text = String::from_str(alloc, name)?;
        let fresh = self.texts.insert(text)?;
        Ok(fresh)
    }
}
