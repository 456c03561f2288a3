ghost use Rattle.std.specs.Prelude.{◌≡◌, string_bytes, map, IfOk};
ghost use Rattle.qml_types.specs.Features.{view_of};
ghost use Rattle.qml_types.specs.Scope.{built_in_slot, slot_among, slot_named, slot_under, slot_of, dotted};
ghost use Rattle.qml_types.specs.Types.{base_of, scope_seen};

use crate::features::{Feature, FeatureMap, SlotFacts};
use crate::known::Known;
use crate::type_ref::{TypeRef, built_in_of, feature_of};
use qml_ast::{Name, Path};
use std::alloc::{AllocError, Global};
use type_table::{BuiltIn, find, slot_at};

/// What an object's members stand in.
#[derive(Drop)]
pub struct ObjectScope<'a> {
    /// The document types that can be named.
    pub known: &'a Known,
    /// The object's type. None where there is none of its name.
    pub named: Option<TypeRef<'a>>,
    /// What the object declares itself.
    pub own: FeatureMap,
}

/// The slot of a built-in type under a path.
#[tactic(auto, using(crate::proofs::Slots::slot_within), unfolding(crate::specs::Scope::built_in_slot))]
pub fn built_in_slot(built_in: BuiltIn, path: &str) -> Option<SlotFacts>
    ensures { result ≡ built_in_slot built_in path.now }
{
    let slot = find(built_in, path)?;
    let info = slot_at(built_in, slot.index);
    Some(SlotFacts {
        kind: Some(info.kind),
        read_only: info.read_only,
    })
}

// The slot that a declared name is.
fn slot_among(feature: Option<Feature>) -> Option<SlotFacts>
    ensures { result ≡ slot_among feature }
{
    match feature {
        Some(Feature::Slot(facts)) => Some(facts),
        _ => None,
    }
}

/// The slot of that name in an object of that type which declares `own`.
#[tactic(auto, unfolding(crate::specs::Scope::slot_named))]
pub fn slot_named(of: TypeRef<'_>, own: &FeatureMap, name: &Name) -> Option<SlotFacts>
    ensures { result ≡ slot_named (view_of (base_of of.entry)) own.now name.now }
{
    let declared = slot_among(feature_of(of, name)).or(slot_among(own.get(name)));
    built_in_slot(built_in_of(of), name.as_str()).or(declared)
}

/// The two names with a dot between them.
pub fn dotted(alloc: Global, first: &Name, second: &Name) -> Result<String, AllocError>
    ensures { IfOk result (λ text. string_bytes text ≡ dotted first.now second.now) }
{
    let mut text = String::from_str(alloc, first.as_str())?;
    text.push('.')?;
    text.push_str(second.as_str())?;
    Ok(text)
}

// The slot under that path in an object of that type which declares `own`.
fn slot_under(
    alloc: Global,
    of: TypeRef<'_>,
    own: &FeatureMap,
    path: &Path,
) -> Result<Option<SlotFacts>, AllocError>
    ensures { IfOk result (λ slot. slot ≡ slot_under (view_of (base_of of.entry)) own.now path.now.first path.now.second) }
{
    match &path.second {
        Some(second) => {
            let text = dotted(alloc, &path.first, second)?;
            Ok(built_in_slot(built_in_of(of), text.as_str()))
        }
        None => Ok(slot_named(of, own, &path.first)),
    }
}

/// The object's slot under that path. An object of unknown type has every slot.
#[tactic(auto, unfolding(crate::specs::Scope::slot_of))]
pub fn slot_of(
    alloc: Global,
    scope: &ObjectScope<'_>,
    path: &Path,
) -> Result<Option<SlotFacts>, AllocError>
    ensures { IfOk result (λ slot. slot ≡ slot_of (scope_seen scope.now) path.now) }
{
    match scope.named {
        Some(of) => slot_under(alloc, of, &scope.own, path),
        None => Ok(Some(SlotFacts {
            kind: None,
            read_only: false,
        })),
    }
}
