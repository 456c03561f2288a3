ghost use Rattle.std.specs.Prelude.{◌≡◌, fold, map, OnOk};
ghost use Rattle.std.specs.List.{flat_map};
ghost use Rattle.qml_types.specs.Faults.{told};
ghost use Rattle.qml_types.specs.Readings.{part_of, given_of, reading_of};
ghost use Rattle.qml_types.specs.Rules.{note, component_faults, member_faults, faults_within, given_faults, child_faults, given_ids, member_ids};
ghost use Rattle.qml_types.specs.Types.{scope_seen};

use crate::kinds::kind_named;
use crate::known::Known;
use crate::member_rules::own_faults;
use crate::names::Names;
use crate::object_rules::{claim, faults_together};
use crate::object_scope::ObjectScope;
use crate::scoping::{is_wrapped, kind_under, scope_of};
use crate::type_ref::is_component;
use qml_ast::{Decl, DocFault, Init, Member};
use std::alloc::{AllocError, Global};
use type_table::Kind;

/// Tells of what is unlawful in an object that is a component's root, its ids with those in it among that.
#[cycle(faults)]
pub fn component_faults(
    alloc: Global,
    known: &Known,
    decl: &Decl,
    first: &mut Option<DocFault>,
) -> Result<(), AllocError>
    ensures { OnOk result (first.new ≡ told first.old (component_faults known.now (reading_of decl.now))) }
{
    object_faults(alloc, known, decl, first)?;
    let mut seen = Names::new(alloc);
    object_ids(alloc, known, decl, &mut seen, first)?;
    Ok(())
}

// Tells of what is unlawful in an object and in those in it, the ids of the component left aside.
#[cycle(faults)]
fn object_faults(
    alloc: Global,
    known: &Known,
    decl: &Decl,
    first: &mut Option<DocFault>,
) -> Result<(), AllocError>
    ensures { OnOk result (first.new ≡ told first.old ((reading_of decl.now).faults known.now)) }
{
    let members = decl.members.as_slice();
    let scope = scope_of(alloc, known, &decl.name, members)?;
    faults_together(alloc, &scope, decl.span, members, first)?;
    all_member_faults(alloc, &scope, members, first)?;
    Ok(())
}

// Tells of what is unlawful in each member.
#[cycle(faults)]
fn all_member_faults(
    alloc: Global,
    scope: &ObjectScope<'_>,
    members: &[Member],
    first: &mut Option<DocFault>,
) -> Result<(), AllocError>
    ensures { OnOk result (first.new ≡ told first.old (flat_map (member_faults (scope_seen scope.now)) (map part_of members.now))) }
{
    for member in members {
        own_faults(alloc, scope, member, first)?;
        faults_within(alloc, scope, member, first)?;
    }
    Ok(())
}

// Tells of what is unlawful in an object that stands in a member.
#[cycle(faults)]
fn faults_within(
    alloc: Global,
    scope: &ObjectScope<'_>,
    member: &Member,
    first: &mut Option<DocFault>,
) -> Result<(), AllocError>
    ensures { OnOk result (first.new ≡ told first.old (faults_within (scope_seen scope.now) (part_of member.now))) }
{
    match member {
        Member::Property {
            kind,
            init: Some(init),
            ..
        } => given_faults(
            alloc,
            scope.known,
            kind_named(scope.known, kind),
            init,
            first,
        ),
        Member::Init { path, init, .. } => {
            let kind = kind_under(alloc, scope, path)?;
            given_faults(alloc, scope.known, kind, init, first)
        }
        Member::Child(child) => child_faults(alloc, scope, child, first),
        _ => Ok(()),
    }
}

// Tells of what is unlawful in a child.
#[cycle(faults)]
fn child_faults(
    alloc: Global,
    scope: &ObjectScope<'_>,
    child: &Decl,
    first: &mut Option<DocFault>,
) -> Result<(), AllocError>
    ensures { OnOk result (first.new ≡ told first.old (child_faults (scope_seen scope.now) (reading_of child.now))) }
{
    if is_component(scope.named) {
        component_faults(alloc, scope.known, child, first)
    } else {
        object_faults(alloc, scope.known, child, first)
    }
}

// Tells of what is unlawful in an object that is given to a slot of that kind.
#[cycle(faults)]
fn given_faults(
    alloc: Global,
    known: &Known,
    kind: Option<Kind>,
    init: &Init,
    first: &mut Option<DocFault>,
) -> Result<(), AllocError>
    ensures { OnOk result (first.new ≡ told first.old (given_faults known.now kind (given_of init.now))) }
{
    match init {
        Init::Object(object) => {
            if is_wrapped(known, kind, object.get()) {
                component_faults(alloc, known, object.get(), first)
            } else {
                object_faults(alloc, known, object.get(), first)
            }
        }
        Init::Expr(_) => Ok(()),
    }
}

// Claims the ids that an object gives, with those in it, in the component round it.
#[cycle(ids)]
fn object_ids(
    alloc: Global,
    known: &Known,
    decl: &Decl,
    seen: &mut Names,
    first: &mut Option<DocFault>,
) -> Result<(), AllocError>
    ensures { OnOk result ((seen.new, first.new) ≡ fold note (seen.old, first.old) ((reading_of decl.now).ids known.now)) }
{
    let members = decl.members.as_slice();
    let scope = scope_of(alloc, known, &decl.name, members)?;
    all_member_ids(alloc, &scope, members, seen, first)?;
    Ok(())
}

// Claims the ids that the members give.
#[cycle(ids)]
fn all_member_ids(
    alloc: Global,
    scope: &ObjectScope<'_>,
    members: &[Member],
    seen: &mut Names,
    first: &mut Option<DocFault>,
) -> Result<(), AllocError>
    ensures { OnOk result ((seen.new, first.new) ≡ fold note (seen.old, first.old) (flat_map (member_ids (scope_seen scope.now)) (map part_of members.now))) }
{
    for member in members {
        member_ids(alloc, scope, member, seen, first)?;
    }
    Ok(())
}

// Claims the ids that a member gives.
#[cycle(ids)]
#[tactic(auto, unfolding(crate::specs::Rules::member_ids))]
fn member_ids(
    alloc: Global,
    scope: &ObjectScope<'_>,
    member: &Member,
    seen: &mut Names,
    first: &mut Option<DocFault>,
) -> Result<(), AllocError>
    ensures { OnOk result ((seen.new, first.new) ≡ fold note (seen.old, first.old) (member_ids (scope_seen scope.now) (part_of member.now))) }
{
    match member {
        Member::Id(name, at) => {
            let again = DocFault::DuplicateId { at: *at };
            claim(alloc, name.as_str(), again, seen, first)
        }
        Member::Property {
            kind,
            init: Some(init),
            ..
        } => {
            let kind = kind_named(scope.known, kind);
            given_ids(alloc, scope.known, kind, init, seen, first)
        }
        Member::Init { path, init, .. } => {
            let kind = kind_under(alloc, scope, path)?;
            given_ids(alloc, scope.known, kind, init, seen, first)
        }
        Member::Child(child) if !is_component(scope.named) => {
            object_ids(alloc, scope.known, child, seen, first)
        }
        _ => Ok(()),
    }
}

// Claims the ids of an object that is given to a slot of that kind.
#[cycle(ids)]
fn given_ids(
    alloc: Global,
    known: &Known,
    kind: Option<Kind>,
    init: &Init,
    seen: &mut Names,
    first: &mut Option<DocFault>,
) -> Result<(), AllocError>
    ensures { OnOk result ((seen.new, first.new) ≡ fold note (seen.old, first.old) (given_ids known.now kind (given_of init.now))) }
{
    match init {
        Init::Object(object) if !is_wrapped(known, kind, object.get()) => {
            object_ids(alloc, known, object.get(), seen, first)
        }
        _ => Ok(()),
    }
}
