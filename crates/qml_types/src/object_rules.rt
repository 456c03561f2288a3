ghost use Rattle.std.specs.Prelude.{◌≡◌, ◌&&◌, not, fold, map, OnOk};
ghost use Rattle.std.specs.List.{flat_map};
ghost use Rattle.qml_types.specs.Faults.{told};
ghost use Rattle.qml_types.specs.Readings.{part_of};
ghost use Rattle.qml_types.specs.Rules.{note, declared_claim, path_claim, second_id, further_child, repeated_names, repeated_paths, second_ids, beyond, missing_child, further_children, is_plain_component, child_count_faults, faults_together, path_text, is_none};
ghost use Rattle.qml_types.specs.Types.{scope_seen};

use crate::first_fault::tell_unless;
use crate::names::Names;
use crate::object_scope::{ObjectScope, dotted};
use crate::type_ref::{is_component, is_plain_component};
use qml_ast::{DocFault, Member, Path, Span};
use std::alloc::{AllocError, Global};

/// Adds the name to those that were given. Where it was there, tells that fault.
#[tactic(auto, unfolding(crate::specs::Rules::note))]
pub fn claim(
    alloc: Global,
    name: &str,
    again: DocFault,
    seen: &mut Names,
    first: &mut Option<DocFault>,
) -> Result<(), AllocError>
    ensures { OnOk result ((seen.new, first.new) ≡ note (seen.old, first.old) (record { name = name.now; again = again })) }
{
    let is_fresh = seen.add(alloc, name)?;
    tell_unless(first, is_fresh, again);
    Ok(())
}

// Claims the name that a member declares.
fn claim_declared(
    alloc: Global,
    member: &Member,
    seen: &mut Names,
    first: &mut Option<DocFault>,
) -> Result<(), AllocError>
    ensures { OnOk result ((seen.new, first.new) ≡ fold note (seen.old, first.old) (declared_claim (part_of member.now))) }
{
    match member {
        Member::Property { name, span, .. }
        | Member::Signal { name, span, .. }
        | Member::Method { name, span, .. } => {
            let again = DocFault::DuplicateName { at: *span };
            claim(alloc, name.as_str(), again, seen, first)
        }
        _ => Ok(()),
    }
}

// Tells of a second property, signal or function of one name.
#[tactic(auto, using(crate::proofs::Turns::told_repeated, std::proofs::lemmas::Grind::common_steps), unfolding(crate::specs::Rules::repeated_names))]
fn repeated_names(
    alloc: Global,
    members: &[Member],
    first: &mut Option<DocFault>,
) -> Result<(), AllocError>
    ensures { OnOk result (first.new ≡ told first.old (repeated_names (map part_of members.now))) }
{
    let mut seen = Names::new(alloc);
    for member in members {
        claim_declared(alloc, member, &mut seen, first)?;
    }
    Ok(())
}

// Claims a path.
fn claim_path(
    alloc: Global,
    path: &Path,
    again: DocFault,
    seen: &mut Names,
    first: &mut Option<DocFault>,
) -> Result<(), AllocError>
    ensures { OnOk result ((seen.new, first.new) ≡ note (seen.old, first.old) (record { name = path_text path.now; again = again })) }
{
    match &path.second {
        Some(second) => {
            let text = dotted(alloc, &path.first, second)?;
            claim(alloc, text.as_str(), again, seen, first)
        }
        None => claim(alloc, path.first.as_str(), again, seen, first),
    }
}

// Claims the path that a member initialises.
fn claim_initialised(
    alloc: Global,
    member: &Member,
    seen: &mut Names,
    first: &mut Option<DocFault>,
) -> Result<(), AllocError>
    ensures { OnOk result ((seen.new, first.new) ≡ fold note (seen.old, first.old) (path_claim (part_of member.now))) }
{
    match member {
        Member::Property {
            name,
            init: Some(_),
            span,
            ..
        } => {
            let again = DocFault::DuplicateName { at: *span };
            claim(alloc, name.as_str(), again, seen, first)
        }
        Member::Init { path, span, .. } => {
            let again = DocFault::DuplicateName { at: *span };
            claim_path(alloc, path, again, seen, first)
        }
        _ => Ok(()),
    }
}

// Tells of a second initialiser of one path.
#[tactic(auto, using(crate::proofs::Turns::told_repeated, std::proofs::lemmas::Grind::common_steps), unfolding(crate::specs::Rules::repeated_paths))]
fn repeated_paths(
    alloc: Global,
    members: &[Member],
    first: &mut Option<DocFault>,
) -> Result<(), AllocError>
    ensures { OnOk result (first.new ≡ told first.old (repeated_paths (map part_of members.now))) }
{
    let mut seen = Names::new(alloc);
    for member in members {
        claim_initialised(alloc, member, &mut seen, first)?;
    }
    Ok(())
}

// Tells of each id of the object after its first.
fn second_ids(members: &[Member], first: &mut Option<DocFault>)
    ensures { first.new ≡ told first.old (second_ids (map part_of members.now)) }
{
    let mut is_first = true;
    for member in members {
        if let Member::Id(_, at) = member {
            tell_unless(first, is_first, DocFault::DuplicateId { at: *at });
            is_first = false;
        }
    }
}

// Tells of each child, but not of the first where one is lawful.
fn children_beyond(members: &[Member], one: bool, first: &mut Option<DocFault>)
    ensures { first.new ≡ told first.old (beyond one (flat_map further_child (map part_of members.now))) }
{
    let mut is_lawful = one;
    for member in members {
        if let Member::Child(child) = member {
            tell_unless(first, is_lawful, DocFault::DuplicateName { at: child.span });
            is_lawful = false;
        }
    }
}

fn has_child(members: &[Member]) -> bool
    ensures { result ≡ not (is_none (flat_map further_child (map part_of members.now))) }
{
    for member in members {
        if matches!(member, Member::Child(_)) {
            return true;
        }
    }
    false
}

// Whether the object is a Component without a child.
fn is_childless(scope: &ObjectScope<'_>, members: &[Member]) -> bool
    ensures { result ≡ (is_plain_component (scope_seen scope.now).type && is_none (flat_map further_child (map part_of members.now))) }
{
    is_plain_component(scope.named) && !has_child(members)
}

// Tells of a Component without a child.
#[tactic(auto, unfolding(crate::specs::Rules::missing_child))]
fn tell_missing(scope: &ObjectScope<'_>, at: Span, members: &[Member], first: &mut Option<DocFault>)
    ensures { first.new ≡ told first.old (missing_child (scope_seen scope.now) at (map part_of members.now)) }
{
    let has_enough = !is_childless(scope, members);
    tell_unless(first, has_enough, DocFault::UnknownProperty { at });
}

// Tells of children that a Component can't have.
#[tactic(auto, unfolding(crate::specs::Rules::further_children))]
fn tell_further(scope: &ObjectScope<'_>, members: &[Member], first: &mut Option<DocFault>)
    ensures { first.new ≡ told first.old (further_children (scope_seen scope.now) (map part_of members.now)) }
{
    if is_component(scope.named) {
        children_beyond(members, is_plain_component(scope.named), first);
    }
}

// Tells of a Component without a child, and of children that a Component can't have.
#[tactic(auto, using(std::proofs::lemmas::Grind::common_steps), unfolding(crate::specs::Rules::child_count_faults))]
fn tell_children(
    scope: &ObjectScope<'_>,
    at: Span,
    members: &[Member],
    first: &mut Option<DocFault>,
)
    ensures { first.new ≡ told first.old (child_count_faults (scope_seen scope.now) at (map part_of members.now)) }
{
    tell_missing(scope, at, members, first);
    tell_further(scope, members, first);
}

/// Tells of what is unlawful in an object's members together, and of its type.
#[tactic(auto, using(std::proofs::lemmas::Grind::common_steps), unfolding(crate::specs::Rules::faults_together, crate::specs::Rules::unknown_type))]
pub fn faults_together(
    alloc: Global,
    scope: &ObjectScope<'_>,
    at: Span,
    members: &[Member],
    first: &mut Option<DocFault>,
) -> Result<(), AllocError>
    ensures { OnOk result (first.new ≡ told first.old (faults_together (scope_seen scope.now) at (map part_of members.now))) }
{
    let is_known = scope.named.is_some();
    tell_unless(first, is_known, DocFault::UnknownType { at });
    tell_children(scope, at, members, first);
    repeated_names(alloc, members, first)?;
    repeated_paths(alloc, members, first)?;
    second_ids(members, first);
    Ok(())
}
