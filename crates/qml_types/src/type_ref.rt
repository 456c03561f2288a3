ghost use Rattle.std.specs.Prelude.{◌≡◌, option_map};
ghost use Rattle.qml_types.specs.Features.{meaning, view_of};
ghost use Rattle.qml_types.specs.Known.{kind_of};
ghost use Rattle.qml_types.specs.Rules.{is_component, is_plain_component};
ghost use Rattle.qml_types.specs.Scope.{built_in_has, type_has};
ghost use Rattle.qml_types.specs.Types.{base_of};

use crate::features::Feature;
use crate::known_type::KnownType;
use qml_ast::Name;
use type_table::{BuiltIn, Kind, find, has_group, method, signal};

/// A type that was found under its name.
#[derive(Clone, Copy)]
pub enum TypeRef<'a> {
    BuiltIn(BuiltIn),
    Document(&'a KnownType),
}

/// The built-in type on which it stands.
#[tactic(auto, using(crate::proofs::TypesOf::views))]
pub fn built_in_of(of: TypeRef<'_>) -> BuiltIn
    ensures { result ≡ (view_of (base_of of.entry)).built_in }
{
    match of {
        TypeRef::BuiltIn(built_in) => built_in,
        TypeRef::Document(known) => known.built_in(),
    }
}

/// What documents declare under this name for objects of the type.
#[tactic(auto, using(crate::proofs::TypesOf::views))]
pub fn feature_of(of: TypeRef<'_>, name: &Name) -> Option<Feature>
    ensures { result ≡ meaning name.now (view_of (base_of of.entry)).features }
{
    match of {
        TypeRef::BuiltIn(_) => None,
        TypeRef::Document(known) => known.feature(name),
    }
}

/// What a property holds whose kind is this type.
pub fn kind_of(of: TypeRef<'_>) -> Kind
    ensures { result ≡ kind_of (base_of of.entry) }
{
    match of {
        TypeRef::BuiltIn(BuiltIn::Component) => Kind::Component,
        _ => Kind::Obj,
    }
}

/// Whether the type is `Component`, or stands on it.
#[tactic(auto, unfolding(crate::specs::Rules::is_component))]
pub fn is_component(of: Option<TypeRef<'_>>) -> bool
    ensures { result ≡ is_component (option_map base_of of.entry) }
{
    match of {
        Some(of) => matches!(built_in_of(of), BuiltIn::Component),
        None => false,
    }
}

/// Whether the type is `Component` itself.
#[tactic(auto, unfolding(crate::specs::Rules::is_plain_component))]
pub fn is_plain_component(of: Option<TypeRef<'_>>) -> bool
    ensures { result ≡ is_plain_component (option_map base_of of.entry) }
{
    matches!(of, Some(TypeRef::BuiltIn(BuiltIn::Component)))
}

// Whether the built-in type has a slot, a signal, a method or a group of slots of that name.
#[tactic(auto, unfolding(crate::specs::Scope::built_in_has))]
fn built_in_has(built_in: BuiltIn, name: &str) -> bool
    ensures { result ≡ built_in_has built_in name.now }
{
    find(built_in, name).is_some()
        || signal(built_in, name).is_some()
        || method(built_in, name).is_some()
        || has_group(built_in, name)
}

/// Whether the type has something of that name. An unknown type has nothing.
#[tactic(auto, unfolding(crate::specs::Scope::type_has))]
pub fn type_has(of: Option<TypeRef<'_>>, name: &Name) -> bool
    ensures { result ≡ type_has (option_map base_of of.entry) name.now }
{
    match of {
        Some(of) => built_in_has(built_in_of(of), name.as_str()) || feature_of(of, name).is_some(),
        None => false,
    }
}
