ghost use Rattle.std.specs.Prelude.{◌≡◌, [], option_copied, OnOk, OnErr};
ghost use Rattle.object_tree.specs.Names.{named, with_name};

use qml_ast::Name;
use std::alloc::{AllocError, Global};
use std::collections::BTreeMap;
use std::marker::Model;

/// What names stand for. Contracts see the names with what each of them stands for, in the order of the
/// names.
#[derive(Drop)]
pub struct Names<X> {
    entries: BTreeMap<Name, X>,
}

impl<X> Model for Names<X> {
    ghost use Rattle.std.specs.Prelude.{ℕ, List};
    ghost use Rattle.std.specs.Coded.{coded_list, coded×, coded_ℕ};

    ghost Value = { List (List ℕ × X) };

    ghost coded = { coded_list (coded× (coded_list coded_ℕ) X.code) };

    ghost view = { λ names. names.entries.entries };
}

impl<X: Drop> Names<X> {
    /// No name. It takes no memory.
    pub fn new(alloc: Global) -> Names<X>
        ensures { result ≡ [] }
    {
        Names {
            entries: BTreeMap::new(alloc),
        }
    }

    /// What a name stands for.
    pub fn get(&self, name: &Name) -> Option<&X>
        ensures { option_copied result ≡ named name.now self.now }
    {
        self.entries.get(name)
    }

    /// Says what a name stands for, whatever it stood for before. The only error is that memory ran out, and
    /// then nothing has changed.
    pub fn insert(&mut self, name: Name, meaning: X) -> Result<(), AllocError>
        ensures ok { OnOk result (self.new ≡ with_name self.old name meaning) }
        ensures err { OnErr result (self.new ≡ self.old) }
    {
        self.entries.insert(name, meaning)?;
        Ok(())
    }
}
