ghost use Rattle.std.specs.Prelude.{◌≡◌, None, [], ◌∷◌, ◌++◌, option_map, OnOk, OnErr};
ghost use Rattle.qml_types.specs.Known.{known_type, type_named};
ghost use Rattle.qml_types.specs.Sized.{AreSized, IsSized};
ghost use Rattle.qml_types.specs.Types.{base_of};

use crate::component::ComponentType;
use crate::known_type::KnownType;
use crate::type_ref::TypeRef;
use indexmap::IndexMap;
use qml_ast::Name;
use shared_value::Shared;
use std::alloc::{AllocError, Global};
use std::marker::Model;
use type_table::builtin;

/// The component types that documents can name, each under the name of its type, as `A` for what `A.qml`
/// declares. Each of them keeps its sizes. Contracts see the names with their component types in the order in
/// which they were added.
#[derive(Drop)]
pub struct Known {
    types: IndexMap<Name, KnownType>,
    alloc: Global,
}

impl Model for Known {
    ghost use Rattle.std.specs.Coded.{codes};
    ghost use Rattle.qml_types.specs.Known.{KnownTypes};
    ghost use Rattle.qml_types.specs.Sized.{AreSized};
    ghost use Rattle.qml_types.specs.contracts.component.ComponentType as component_row;

    ghost Value = { KnownTypes };

    ghost coded = { Prim.hlevel (codes, component_row.the_row.coded) };

    ghost view = { λ known. known.types.entries };

    ghost invariant = { λ known. AreSized known.types.entries };
}

impl Known {
    /// No types.
    pub fn new(alloc: Global) -> Known
        ensures { result ≡ [] }
    {
        Known {
            types: IndexMap::new(alloc),
            alloc,
        }
    }

    /// Adds a type that keeps its sizes, as each does that `compile` answers, under a name that has none yet.
    ///
    /// # Errors
    ///
    /// Memory ran out. The types are as before.
    pub fn add(&mut self, name: Name, component: Shared<ComponentType>) -> Result<(), AllocError>
        requires new { known_type self.old name ≡ None }
        requires sized { IsSized component }
        ensures added { OnOk result (self.new ≡ self.old ++ (name, component) ∷ []) }
        ensures kept { OnErr result (self.new ≡ self.old) }
    {
        let known = KnownType::new(self.alloc, component)?;
        self.types.insert(name, known)?;
        Ok(())
    }

    /// Each type keeps its sizes. The function does nothing.
    pub(crate) fn sized(&self)
        ensures { AreSized self.now }
    {
        let _types = &self.types;
    }

    /// The type of that name: a built-in one, or else a known document's.
    #[tactic(auto, unfolding(crate::specs::Known::type_named))]
    pub(crate) fn type_named(&self, name: &Name) -> Option<TypeRef<'_>>
        ensures { option_map base_of result ≡ type_named self.now name.now }
    {
        match builtin(name.as_str()) {
            Some(built_in) => Some(TypeRef::BuiltIn(built_in)),
            None => Some(TypeRef::Document(self.types.get(name)?)),
        }
    }
}
