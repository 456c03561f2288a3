ghost use Rattle.std.specs.Prelude.{◌≡◌, ◌^◌, ◌<◌, [], fold, length, map, slice_get, OnOk, OnErr};
ghost use Rattle.std.specs.Option.{option_copied};
ghost use Rattle.type_loader.specs.Naming.{among, with_name};

use indexmap::IndexSet;
use qml_ast::Name;
use qml_types::Mention;
use std::alloc::{AllocError, Global};
use std::marker::Model;

/// Different names, in the order in which they came.
#[derive(Drop)]
pub struct Names {
    names: IndexSet<Name>,
}

impl Model for Names {
    ghost use Rattle.std.specs.Prelude.{ℕ, List};

    ghost Value = { List (List ℕ) };

    ghost view = { λ n. n.names.keys };
}

impl Names {
    /// No names.
    pub fn new(alloc: Global) -> Names
        ensures { result ≡ [] }
    {
        Names {
            names: IndexSet::new(alloc),
        }
    }

    /// How many names there are.
    pub fn len(&self) -> usize
        ensures len { result ≡ length self.now }
        ensures small { result < 2 ^ 63 }
    {
        self.names.len()
    }

    /// The name of that place, from 0.
    pub fn at(&self, place: usize) -> Option<&Name>
        ensures { option_copied result ≡ slice_get self.now place }
    {
        self.names.get_index(place)
    }

    /// The names in their order.
    pub fn as_slice(&self) -> &[Name]
        ensures { result.now ≡ self.now }
    {
        self.names.as_slice()
    }

    /// Whether the name is there.
    pub fn has(&self, name: &Name) -> bool
        ensures { result ≡ among self.now name.now }
    {
        self.names.contains(name)
    }

    /// Adds a name at the end, where it is new. The only error is that memory ran out, and then nothing
    /// has changed.
    pub fn add(&mut self, name: Name) -> Result<(), AllocError>
        ensures ok { OnOk result (self.new ≡ with_name self.old name) }
        ensures err { OnErr result (self.new ≡ self.old) }
    {
        self.names.insert(name)?;
        Ok(())
    }

    /// Adds the names that are mentioned, each at the end, where it is new. The only error is that
    /// memory ran out.
    pub fn add_all(&mut self, alloc: Global, mentions: &[Mention]) -> Result<(), AllocError>
        ensures { OnOk result (self.new ≡ fold with_name self.old (map (λ m. m.name) mentions.now)) }
    {
        for mention in mentions {
            if !self.has(&mention.name) {
                self.add(mention.name.copy(alloc)?)?;
            }
        }
        Ok(())
    }
}
