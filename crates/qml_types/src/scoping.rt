ghost use Rattle.std.specs.Prelude.{◌≡◌, fold, map, OnOk, IfOk};
ghost use Rattle.qml_types.specs.Features.{with_feature};
ghost use Rattle.qml_types.specs.Readings.{part_of, reading_of, scope_of};
ghost use Rattle.qml_types.specs.Rules.{own_feature, own_features, is_wrapped, kind_in};
ghost use Rattle.qml_types.specs.Scope.{slot_of};
ghost use Rattle.qml_types.specs.Types.{scope_seen};

use crate::features::{Feature, FeatureMap, SlotFacts};
use crate::kinds::kind_named;
use crate::known::Known;
use crate::object_scope::{ObjectScope, slot_of};
use crate::type_ref::is_component;
use qml_ast::{Decl, Member, Name, Path};
use std::alloc::{AllocError, Global};
use type_table::Kind;

// Adds what a member declares, unless its name is there.
fn add_feature(
    alloc: Global,
    known: &Known,
    member: &Member,
    own: &mut FeatureMap,
) -> Result<(), AllocError>
    ensures { OnOk result (own.new ≡ fold with_feature own.old (own_feature known.now (part_of member.now))) }
{
    match member {
        Member::Property {
            fixed,
            kind,
            name,
            ..
        } => {
            let facts = SlotFacts {
                kind: kind_named(known, kind),
                read_only: *fixed,
            };
            own.add(alloc, name, Feature::Slot(facts))
        }
        Member::Signal { name, .. } => own.add(alloc, name, Feature::Signal),
        Member::Method { name, .. } => own.add(alloc, name, Feature::Method),
        _ => Ok(()),
    }
}

// What an object's members declare.
fn own_features(alloc: Global, known: &Known, members: &[Member]) -> Result<FeatureMap, AllocError>
    ensures { IfOk result (λ own. own ≡ own_features known.now (map part_of members.now)) }
{
    let mut own = FeatureMap::new(alloc);
    for member in members {
        add_feature(alloc, known, member, &mut own)?;
    }
    Ok(own)
}

/// What the members of an object of that type's name stand in.
pub fn scope_of<'a>(
    alloc: Global,
    known: &'a Known,
    name: &Name,
    members: &[Member],
) -> Result<ObjectScope<'a>, AllocError>
    ensures { IfOk result (λ scope. scope_seen scope ≡ scope_of known.now name.now (map part_of members.now)) }
{
    let own = own_features(alloc, known, members)?;
    let named = known.type_named(name);
    Ok(ObjectScope { known, named, own })
}

/// Whether an object that is given to a slot of that kind declares what a `Component` has in it: the slot
/// is for components, and the object is none.
#[tactic(auto, using(crate::proofs::Turns::reading_unrolled), unfolding(crate::specs::Rules::is_wrapped))]
pub fn is_wrapped(known: &Known, kind: Option<Kind>, object: &Decl) -> bool
    ensures { result ≡ is_wrapped known.now kind (reading_of object.now) }
{
    match kind {
        Some(Kind::Component) => !is_component(known.type_named(&object.name)),
        _ => false,
    }
}

/// The kind of the object's slot under that path, where there is one.
pub fn kind_under(
    alloc: Global,
    scope: &ObjectScope<'_>,
    path: &Path,
) -> Result<Option<Kind>, AllocError>
    ensures { IfOk result (λ kind. kind ≡ kind_in (slot_of (scope_seen scope.now) path.now)) }
{
    match slot_of(alloc, scope, path)? {
        Some(facts) => Ok(facts.kind),
        None => Ok(None),
    }
}
