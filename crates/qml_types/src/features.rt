ghost use Rattle.std.specs.Prelude.{◌≡◌, [], ◌∷◌, map, fold, IfOk, OnOk};
ghost use Rattle.qml_types.specs.Features.{meaning, with_feature, slot_feature, signal_feature, method_feature, type_of, view_of};
ghost use Rattle.qml_types.specs.declared.features.Feature.{Feature};

use crate::component::{Base, ComponentType, MethodDecl, SignalDecl, SlotDecl};
use indexmap::IndexMap;
use qml_ast::Name;
use std::alloc::{AllocError, Global};
use std::marker::Model;
use type_table::{BuiltIn, Kind};

/// What is known of a slot before an object has it.
#[derive(Clone, Copy)]
pub struct SlotFacts {
    /// What it holds. None where the declaration names no kind.
    pub kind: Option<Kind>,
    /// Whether documents don't initialise it.
    pub read_only: bool,
}

/// What a declared name is.
#[derive(Clone, Copy)]
pub enum Feature {
    Slot(SlotFacts),
    Signal,
    Method,
}

/// Declared names, each with what it is, in the order in which they were added.
#[derive(Drop)]
pub struct FeatureMap {
    names: IndexMap<Name, Feature>,
}

impl Model for FeatureMap {
    ghost use Rattle.qml_types.specs.Features.{Features};

    ghost Value = { Features };

    ghost view = { λ features. features.names.entries };
}

impl FeatureMap {
    pub fn new(alloc: Global) -> FeatureMap
        ensures { result ≡ [] }
    {
        FeatureMap {
            names: IndexMap::new(alloc),
        }
    }

    /// What the name is.
    pub fn get(&self, name: &Name) -> Option<Feature>
        ensures { result ≡ meaning name.now self.now }
    {
        self.names.get(name).copied()
    }

    /// Adds the name, unless it is there.
    #[tactic(auto, unfolding(crate::specs::Features::with_feature))]
    pub fn add(&mut self, alloc: Global, name: &Name, feature: Feature) -> Result<(), AllocError>
        ensures { OnOk result (self.new ≡ with_feature self.old (name.now, feature)) }
    {
        if !self.names.contains_key(name) {
            self.names.insert(name.copy(alloc)?, feature)?;
        }
        Ok(())
    }
}

/// Adds the names of properties, those that are not there yet.
pub fn add_slots(
    alloc: Global,
    slots: &[SlotDecl],
    features: &mut FeatureMap,
) -> Result<(), AllocError>
    ensures { OnOk result (features.new ≡ fold with_feature features.old (map slot_feature slots.now)) }
{
    for slot in slots {
        let facts = SlotFacts {
            kind: Some(slot.kind),
            read_only: slot.read_only,
        };
        features.add(alloc, &slot.name, Feature::Slot(facts))?;
    }
    Ok(())
}

/// Adds the names of signals, those that are not there yet.
pub fn add_signals(
    alloc: Global,
    signals: &[SignalDecl],
    features: &mut FeatureMap,
) -> Result<(), AllocError>
    ensures { OnOk result (features.new ≡ fold with_feature features.old (map signal_feature signals.now)) }
{
    for signal in signals {
        features.add(alloc, &signal.name, Feature::Signal)?;
    }
    Ok(())
}

/// Adds the names of functions, those that are not there yet.
pub fn add_methods(
    alloc: Global,
    methods: &[MethodDecl],
    features: &mut FeatureMap,
) -> Result<(), AllocError>
    ensures { OnOk result (features.new ≡ fold with_feature features.old (map method_feature methods.now)) }
{
    for method in methods {
        features.add(alloc, &method.name, Feature::Method)?;
    }
    Ok(())
}

/// The built-in type on which a component's root stands. Adds what documents declare for the root to
/// `features`, which has nothing yet.
#[cycle(gather)]
pub fn gather(
    alloc: Global,
    component: &ComponentType,
    features: &mut FeatureMap,
) -> Result<BuiltIn, AllocError>
    requires { features.old ≡ [] }
    ensures { IfOk result (λ built_in. type_of component.now ≡ record { built_in = built_in; features = features.new }) }
{
    match component.objects.as_slice() {
        [root, ..] => {
            let built_in = gather_base(alloc, &root.base, features)?;
            add_slots(alloc, root.slots.as_slice(), features)?;
            add_signals(alloc, root.signals.as_slice(), features)?;
            add_methods(alloc, root.methods.as_slice(), features)?;
            Ok(built_in)
        }
        [] => Ok(BuiltIn::QtObject),
    }
}

// The same for an object that has no members.
#[cycle(gather)]
fn gather_base(alloc: Global, base: &Base, features: &mut FeatureMap) -> Result<BuiltIn, AllocError>
    requires { features.old ≡ [] }
    ensures { IfOk result (λ built_in. view_of base.now ≡ record { built_in = built_in; features = features.new }) }
{
    match base {
        Base::BuiltIn(built_in) => Ok(*built_in),
        Base::Document(document) => gather(alloc, document.get(), features),
    }
}
