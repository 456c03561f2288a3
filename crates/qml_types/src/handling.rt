ghost use Rattle.std.specs.Prelude.{◌≡◌, ◌≤◌, true, length, string_bytes, IfOk};
ghost use Rattle.qml_types.specs.Features.{view_of};
ghost use Rattle.qml_types.specs.Scope.{is_signal, has_signal, changing, has_change, begins_upper, with_lower, signals_for, is_told_of, handles, is_attached, handler_under, is_handler};
ghost use Rattle.qml_types.specs.Types.{base_of, scope_seen, names_seen};

use crate::features::{Feature, FeatureMap};
use crate::object_scope::{ObjectScope, slot_named};
use crate::type_ref::{TypeRef, built_in_of, feature_of};
use qml_ast::{Name, Path};
use std::alloc::{AllocError, Global};
use type_table::signal;

/// The signals that a handler handles: `foo` and `Foo` for `onFoo`.
#[derive(Drop)]
pub struct SignalNames {
    pub lower: Name,
    pub upper: Name,
}

fn is_signal(feature: Option<Feature>) -> bool
    ensures { result ≡ is_signal feature }
{
    matches!(feature, Some(Feature::Signal))
}

// Whether an object of that type which declares `own` has a signal of that name.
#[tactic(auto, unfolding(crate::specs::Scope::has_signal))]
fn has_signal(of: TypeRef<'_>, own: &FeatureMap, name: &Name) -> bool
    ensures { result ≡ has_signal (view_of (base_of of.entry)) own.now name.now }
{
    signal(built_in_of(of), name.as_str()).is_some()
        || is_signal(feature_of(of, name))
        || is_signal(own.get(name))
}

// The slot of whose changes a signal of that name tells: `x` of `xChanged`.
fn changing(alloc: Global, name: &Name) -> Result<Option<Name>, AllocError>
    ensures { IfOk result (λ slot. slot ≡ changing name.now) }
{
    match name.as_str().strip_suffix("Changed") {
        Some(slot) => Ok(Some(Name::new(alloc, slot)?)),
        None => Ok(None),
    }
}

// Whether there is a slot of whose changes a signal of that name tells.
#[tactic(auto, unfolding(crate::specs::Scope::has_change))]
fn has_change(
    alloc: Global,
    of: TypeRef<'_>,
    own: &FeatureMap,
    name: &Name,
) -> Result<bool, AllocError>
    ensures { IfOk result (λ has. has ≡ has_change (view_of (base_of of.entry)) own.now name.now) }
{
    match changing(alloc, name)? {
        Some(slot) => Ok(slot_named(of, own, &slot).is_some()),
        None => Ok(false),
    }
}

/// Whether the name begins with an upper-case letter.
pub fn begins_upper(name: &[u8]) -> bool
    ensures { result ≡ begins_upper name.now }
{
    match name {
        [first, ..] => first.is_ascii_uppercase(),
        [] => false,
    }
}

// The name, which begins with an upper-case letter, with its first letter in lower case.
fn with_lower(alloc: Global, name: &str) -> Result<Name, AllocError>
    requires upper { begins_upper name.now ≡ true }
    requires short { length name.now ≤ 65536 }
    ensures { IfOk result (λ lower. lower ≡ with_lower name.now) }
{
    let first = name.as_bytes()[0] + 32;
    let mut lower = String::new(alloc);
    lower.push(first as char)?;
    lower.push_str(&name[1..])?;
    Name::new(alloc, lower.as_str())
}

// The signals that a handler of that name handles.
fn signals_for(alloc: Global, handler: &Name) -> Result<Option<SignalNames>, AllocError>
    ensures { IfOk result (λ names. names_seen names ≡ signals_for handler.now) }
{
    match handler.as_str().strip_prefix("on") {
        Some(name) if begins_upper(name.as_bytes()) => {
            let upper = Name::new(alloc, name)?;
            let lower = with_lower(alloc, name)?;
            Ok(Some(SignalNames { lower, upper }))
        }
        _ => Ok(None),
    }
}

// Whether a signal of that name, or changes of which it tells, come from the object.
#[tactic(auto, unfolding(crate::specs::Scope::is_told_of))]
fn is_told_of(
    alloc: Global,
    of: TypeRef<'_>,
    own: &FeatureMap,
    signal: &Name,
) -> Result<bool, AllocError>
    ensures { IfOk result (λ is. is ≡ is_told_of (view_of (base_of of.entry)) own.now signal.now) }
{
    if has_signal(of, own, signal) {
        return Ok(true);
    }
    has_change(alloc, of, own, signal)
}

// Whether a handler of that name handles something in an object of that type which declares `own`.
#[tactic(auto, unfolding(crate::specs::Scope::handles))]
fn handles(
    alloc: Global,
    of: TypeRef<'_>,
    own: &FeatureMap,
    handler: &Name,
) -> Result<bool, AllocError>
    ensures { IfOk result (λ does. does ≡ handles (view_of (base_of of.entry)) own.now handler.now) }
{
    match signals_for(alloc, handler)? {
        Some(names) => {
            if is_told_of(alloc, of, own, &names.lower)? {
                return Ok(true);
            }
            is_told_of(alloc, of, own, &names.upper)
        }
        None => Ok(false),
    }
}

// Whether these are the names of a handler of the component.
#[tactic(auto, unfolding(crate::specs::Scope::is_attached))]
fn is_attached(first: &str, second: &str) -> bool
    ensures { result ≡ is_attached first.now second.now }
{
    first == "Component" && (second == "onCompleted" || second == "onDestruction")
}

fn handler_under(
    alloc: Global,
    of: TypeRef<'_>,
    own: &FeatureMap,
    path: &Path,
) -> Result<bool, AllocError>
    ensures { IfOk result (λ is. is ≡ handler_under (view_of (base_of of.entry)) own.now path.now.first path.now.second) }
{
    match &path.second {
        Some(second) => Ok(is_attached(path.first.as_str(), second.as_str())),
        None => handles(alloc, of, own, &path.first),
    }
}

/// Whether a handler of that path handles something. An object of unknown type has every handler.
#[tactic(auto, unfolding(crate::specs::Scope::is_handler))]
pub fn is_handler(alloc: Global, scope: &ObjectScope<'_>, path: &Path) -> Result<bool, AllocError>
    ensures { IfOk result (λ is. is ≡ is_handler (scope_seen scope.now) path.now) }
{
    match scope.named {
        Some(of) => handler_under(alloc, of, &scope.own, path),
        None => Ok(true),
    }
}
