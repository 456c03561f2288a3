ghost use Rattle.std.specs.Prelude.{◌≡◌, ◌++◌, Some, [], map, OnOk};
ghost use Rattle.std.specs.List.{flat_map};
ghost use Rattle.qml_types.specs.Faults.{told};
ghost use Rattle.qml_types.specs.Readings.{part_of, given_of};
ghost use Rattle.qml_types.specs.Known.{kind_named};
ghost use Rattle.qml_types.specs.Parts.{literal_of};
ghost use Rattle.qml_types.specs.Rules.{unknown_kind, taken_name, wrong_value, wrong_given, signal_claim, method_claim, repeated, initialiser_faults, own_faults};
ghost use Rattle.qml_types.specs.Types.{scope_seen};

use crate::first_fault::tell_unless;
use crate::handling::{begins_upper, is_handler};
use crate::kinds::{kind_named, takes, takes_object};
use crate::known::Known;
use crate::names::Names;
use crate::object_rules::claim;
use crate::object_scope::{ObjectScope, slot_of};
use crate::type_ref::type_has;
use qml_ast::{DocFault, Expr, Init, Member, MethodParam, Name, Path, SignalParam, Span};
use std::alloc::{AllocError, Global};
use type_table::Kind;

// Tells of a kind that is no word for one and no type's name. Gives the kind.
#[tactic(auto, unfolding(crate::specs::Rules::unknown_kind))]
fn tell_kind(known: &Known, name: &Name, at: Span, first: &mut Option<DocFault>) -> Option<Kind>
    ensures kind { result ≡ kind_named known.now name.now }
    ensures told { first.new ≡ told first.old (unknown_kind known.now name.now at) }
{
    let kind = kind_named(known, name);
    tell_unless(first, kind.is_some(), DocFault::UnknownType { at });
    kind
}

// Tells of a declared name that the object's type has already.
#[tactic(auto, unfolding(crate::specs::Rules::taken_name))]
fn tell_taken(scope: &ObjectScope<'_>, name: &Name, at: Span, first: &mut Option<DocFault>)
    ensures { first.new ≡ told first.old (taken_name (scope_seen scope.now) name.now at) }
{
    let is_free = !type_has(scope.named, name);
    tell_unless(first, is_free, DocFault::DuplicateName { at });
}

// Tells of a literal that a slot of that kind can't take.
fn tell_expression(kind: Kind, expr: &Expr, at: Span, first: &mut Option<DocFault>)
    ensures { first.new ≡ told first.old (wrong_value (Some kind) (literal_of expr.now) at) }
{
    if let Expr::Lit(literal) = expr {
        tell_unless(first, takes(kind, literal), DocFault::WrongLiteral { at });
    }
}

// Tells of a literal or an object that a slot of that kind can't take. A slot of no kind takes each.
fn tell_given(kind: Option<Kind>, init: &Init, at: Span, first: &mut Option<DocFault>)
    ensures { first.new ≡ told first.old (wrong_given kind (given_of init.now) at) }
{
    if let Some(kind) = kind {
        match init {
            Init::Expr(expr) => tell_expression(kind, expr.get(), at, first),
            Init::Object(object) => {
                let at = object.get().span;
                tell_unless(first, takes_object(kind), DocFault::WrongLiteral { at });
            }
        }
    }
}

// Tells of the kinds of a signal's parameters that are none.
fn tell_param_kinds(known: &Known, params: &[SignalParam], first: &mut Option<DocFault>)
    ensures { first.new ≡ told first.old (flat_map (λ p. unknown_kind known.now p.kind p.kind_span) params.now) }
{
    for param in params {
        tell_kind(known, &param.kind, param.kind_span, first);
    }
}

// Tells of a signal's parameters that have the name of an earlier one.
#[tactic(auto, using(crate::proofs::Turns::told_repeated, std::proofs::lemmas::Grind::common_steps))]
fn repeated_signal_params(
    alloc: Global,
    params: &[SignalParam],
    first: &mut Option<DocFault>,
) -> Result<(), AllocError>
    ensures { OnOk result (first.new ≡ told first.old (repeated [] (map signal_claim params.now))) }
{
    let mut seen = Names::new(alloc);
    for param in params {
        let again = DocFault::DuplicateName {
            at: param.name_span,
        };
        claim(alloc, param.name.as_str(), again, &mut seen, first)?;
    }
    Ok(())
}

// Tells of a function's parameters that have the name of an earlier one.
#[tactic(auto, using(crate::proofs::Turns::told_repeated, std::proofs::lemmas::Grind::common_steps))]
fn repeated_method_params(
    alloc: Global,
    params: &[MethodParam],
    first: &mut Option<DocFault>,
) -> Result<(), AllocError>
    ensures { OnOk result (first.new ≡ told first.old (repeated [] (map method_claim params.now))) }
{
    let mut seen = Names::new(alloc);
    for param in params {
        let again = DocFault::DuplicateName { at: param.span };
        claim(alloc, param.name.as_str(), again, &mut seen, first)?;
    }
    Ok(())
}

// Tells of a property's kind that is none, and of a name that the type has. Gives the kind.
#[tactic(auto, using(std::proofs::lemmas::Grind::common_steps))]
fn tell_property(
    scope: &ObjectScope<'_>,
    kind: &Name,
    kind_at: Span,
    name: &Name,
    at: Span,
    first: &mut Option<DocFault>,
) -> Option<Kind>
    ensures kind { result ≡ kind_named scope.now.known.now kind.now }
    ensures told { first.new ≡ told first.old (unknown_kind scope.now.known.now kind.now kind_at ++ taken_name (scope_seen scope.now) name.now at) }
{
    let kind = tell_kind(scope.known, kind, kind_at, first);
    tell_taken(scope, name, at, first);
    kind
}

// Tells of what is unlawful in a signal.
#[tactic(auto, using(std::proofs::lemmas::Grind::common_steps))]
fn signal_faults(
    alloc: Global,
    scope: &ObjectScope<'_>,
    name: &Name,
    params: &[SignalParam],
    at: Span,
    first: &mut Option<DocFault>,
) -> Result<(), AllocError>
    ensures { OnOk result (first.new ≡ told first.old (flat_map (λ p. unknown_kind scope.now.known.now p.kind p.kind_span) params.now
        ++ (taken_name (scope_seen scope.now) name.now at ++ repeated [] (map signal_claim params.now)))) }
{
    tell_param_kinds(scope.known, params, first);
    tell_taken(scope, name, at, first);
    repeated_signal_params(alloc, params, first)
}

// Tells of what is unlawful in a function.
#[tactic(auto, using(std::proofs::lemmas::Grind::common_steps))]
fn method_faults(
    alloc: Global,
    scope: &ObjectScope<'_>,
    name: &Name,
    params: &[MethodParam],
    at: Span,
    first: &mut Option<DocFault>,
) -> Result<(), AllocError>
    ensures { OnOk result (first.new ≡ told first.old (taken_name (scope_seen scope.now) name.now at ++ repeated [] (map method_claim params.now))) }
{
    tell_taken(scope, name, at, first);
    repeated_method_params(alloc, params, first)
}

// Tells of what is unlawful in an initialiser, an object in it left aside.
#[tactic(auto, using(std::proofs::lemmas::Grind::common_steps), unfolding(crate::specs::Rules::initialiser_faults))]
fn initialiser_faults(
    alloc: Global,
    scope: &ObjectScope<'_>,
    path: &Path,
    init: &Init,
    value_at: Span,
    at: Span,
    first: &mut Option<DocFault>,
) -> Result<(), AllocError>
    ensures { OnOk result (first.new ≡ told first.old (initialiser_faults (scope_seen scope.now) path.now (given_of init.now) value_at at)) }
{
    match slot_of(alloc, scope, path)? {
        Some(facts) => {
            tell_given(facts.kind, init, value_at, first);
            tell_unless(first, !facts.read_only, DocFault::ReadOnly { at });
        }
        None => tell_unless(first, false, DocFault::UnknownProperty { at }),
    }
    Ok(())
}

/// Tells of what is unlawful in a member, an object in it left aside.
#[tactic(auto, using(std::proofs::lemmas::Grind::common_steps), unfolding(crate::specs::Rules::own_faults, crate::specs::Rules::initialiser_faults))]
pub fn own_faults(
    alloc: Global,
    scope: &ObjectScope<'_>,
    member: &Member,
    first: &mut Option<DocFault>,
) -> Result<(), AllocError>
    ensures { OnOk result (first.new ≡ told first.old (own_faults (scope_seen scope.now) (part_of member.now))) }
{
    match member {
        Member::Id(name, at) => {
            let is_good = !begins_upper(name.as_bytes());
            tell_unless(first, is_good, DocFault::BadId { at: *at });
            Ok(())
        }
        Member::Property {
            kind,
            name,
            init,
            kind_span,
            value_span,
            span,
            ..
        } => {
            let of = tell_property(scope, kind, *kind_span, name, *span, first);
            if let Some(init) = init {
                tell_given(of, init, *value_span, first);
            }
            Ok(())
        }
        Member::Signal { name, params, span } => {
            signal_faults(alloc, scope, name, params.as_slice(), *span, first)
        }
        Member::Init {
            path,
            init,
            value_span,
            span,
        } => initialiser_faults(alloc, scope, path, init, *value_span, *span, first),
        Member::Handler { path, span, .. } => {
            let is_handled = is_handler(alloc, scope, path)?;
            tell_unless(first, is_handled, DocFault::UnknownProperty { at: *span });
            Ok(())
        }
        Member::Method {
            name,
            params,
            span,
            ..
        } => method_faults(alloc, scope, name, params.as_slice(), *span, first),
        Member::Child(_) => Ok(()),
    }
}
