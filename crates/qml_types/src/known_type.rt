ghost use Rattle.std.specs.Prelude.{◌≡◌, IfOk};
ghost use Rattle.qml_types.specs.Features.{meaning, type_of};

use crate::component::ComponentType;
use crate::features::{Feature, FeatureMap, gather};
use qml_ast::Name;
use shared_value::Shared;
use std::alloc::{AllocError, Global};
use std::marker::Model;
use type_table::BuiltIn;

/// A component type with what objects of its type have.
#[derive(Drop)]
pub struct KnownType {
    component: Shared<ComponentType>,
    built_in: BuiltIn,
    features: FeatureMap,
}

impl Model for KnownType {
    ghost use Rattle.std.specs.Coded.{codes};
    ghost use Rattle.std.specs.Prelude.{◌≡◌};
    ghost use Rattle.qml_types.specs.Features.{type_of};
    ghost use Rattle.qml_types.specs.contracts.component.ComponentType as component_row;
    ghost use Rattle.qml_types.specs.declared.component.ComponentType.{ComponentType};

    ghost Value = { ComponentType };

    ghost coded = { Prim.hlevel (codes, component_row.the_row.coded) };

    ghost view = { λ known. known.component };

    ghost invariant = { λ known. type_of known.component ≡ record { built_in = known.built_in; features = known.features } };
}

impl KnownType {
    pub fn new(alloc: Global, component: Shared<ComponentType>) -> Result<KnownType, AllocError>
        ensures { IfOk result (λ known. known ≡ component) }
    {
        let mut features = FeatureMap::new(alloc);
        let built_in = gather(alloc, component.get(), &mut features)?;
        Ok(KnownType {
            component,
            built_in,
            features,
        })
    }

    /// The component type.
    pub fn component(&self) -> &Shared<ComponentType>
        ensures { result.now ≡ self.now }
    {
        &self.component
    }

    /// The built-in type on which it stands.
    pub fn built_in(&self) -> BuiltIn
        ensures { result ≡ (type_of self.now).built_in }
    {
        self.built_in
    }

    /// What documents declare under this name for objects of the type.
    pub fn feature(&self, name: &Name) -> Option<Feature>
        ensures { result ≡ meaning name.now (type_of self.now).features }
    {
        self.features.get(name)
    }
}
