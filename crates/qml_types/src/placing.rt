ghost use Rattle.std.specs.Prelude.{◌≡◌, Some, [], fold, map, length, option_map, OnOk, IfOk};
ghost use Rattle.std.specs.List.{flat_map};
ghost use Rattle.qml_types.specs.Placed.{component_of, inner_of, object_of, wrapper_of, with_given, with_part, within};
ghost use Rattle.qml_types.specs.Readings.{part_of, given_of, reading_of};
ghost use Rattle.qml_types.specs.Types.{scope_seen};
ghost use Rattle.qml_types.specs.declared.component.Role.TheVariants.{Value};

use crate::component::{Base, ComponentType, ObjectDecl, Role};
use crate::content::{Behaviour, Content, Interface, content_of};
use crate::declaring::base_for;
use crate::kinds::kind_named;
use crate::known::Known;
use crate::object_scope::ObjectScope;
use crate::scoping::{is_wrapped, kind_under, scope_of};
use crate::sizing::sizes_of;
use crate::type_ref::{is_component, is_plain_component};
use qml_ast::{Decl, Init, Member, Name, Path, Span};
use shared_value::Shared;
use sqlite_items::Items;
use std::alloc::{AllocError, Global};
use type_table::{BuiltIn, Kind};

/// The component whose root is this object.
#[cycle(placing)]
pub fn component_of(
    alloc: Global,
    known: &Known,
    file: &Name,
    decl: &Decl,
) -> Result<ComponentType, AllocError>
    ensures { IfOk result (λ component. component ≡ component_of known.now file.now (reading_of decl.now)) }
{
    let copied = file.copy(alloc)?;
    let mut objects = Items::new(alloc);
    place_object(alloc, known, file, None, Role::Root, decl, &mut objects)?;
    let sizes = sizes_of(alloc, objects.as_slice())?;
    Ok(ComponentType {
        file: copied,
        objects,
        sizes,
    })
}

// What a Component declares: its first child.
#[cycle(placing)]
fn inner_of(
    alloc: Global,
    scope: &ObjectScope<'_>,
    file: &Name,
    members: &[Member],
) -> Result<Option<Shared<ComponentType>>, AllocError>
    ensures { IfOk result (λ inner. inner ≡ inner_of (scope_seen scope.now) file.now (map part_of members.now)) }
{
    if !is_plain_component(scope.named) {
        return Ok(None);
    }
    for member in members {
        if let Member::Child(child) = member {
            let inner = component_of(alloc, scope.known, file, child)?;
            return Ok(Some(Shared::new(alloc, inner)?));
        }
    }
    Ok(None)
}

// The object itself.
#[cycle(placing)]
fn object_of(
    alloc: Global,
    scope: &ObjectScope<'_>,
    file: &Name,
    owner: Option<u32>,
    role: Role,
    at: Span,
    members: &[Member],
) -> Result<ObjectDecl, AllocError>
    ensures { IfOk result (λ object. object ≡ object_of (scope_seen scope.now) (record { file = file.now; owner = owner; role = role }) at (map part_of members.now)) }
{
    let content = content_of(alloc, scope.known, members)?;
    let inner = inner_of(alloc, scope, file, members)?;
    let base = base_for(scope.named)?;
    let Content {
        id,
        interface,
        behaviour,
    } = content;
    let Interface {
        slots,
        signals,
        methods,
    } = interface;
    let Behaviour { inits, handlers } = behaviour;
    Ok(ObjectDecl {
        base,
        owner,
        role,
        id,
        slots,
        signals,
        methods,
        inits,
        handlers,
        inner,
        span: at,
    })
}

// Adds an object and those in it.
#[cycle(placing)]
fn place_object(
    alloc: Global,
    known: &Known,
    file: &Name,
    owner: Option<u32>,
    role: Role,
    decl: &Decl,
    objects: &mut Items<ObjectDecl>,
) -> Result<(), AllocError>
    ensures { OnOk result (objects.new ≡ (reading_of decl.now).placed known.now (record { file = file.now; owner = owner; role = role }) objects.old) }
{
    let index = next_index(objects)?;
    let members = decl.members.as_slice();
    let scope = scope_of(alloc, known, &decl.name, members)?;
    let object = object_of(alloc, &scope, file, owner, role, decl.span, members)?;
    objects.push(object)?;
    place_members(alloc, &scope, file, index, members, objects)?;
    Ok(())
}

// The number of the next object. There is none where 2^32 objects stand.
fn next_index(objects: &Items<ObjectDecl>) -> Result<u32, AllocError>
    ensures { IfOk result (λ index. index ≡ length objects.now) }
{
    match u32::try_from(objects.len()) {
        Ok(index) => Ok(index),
        Err(_) => Err(AllocError),
    }
}

// Adds the objects in an object.
#[cycle(placing)]
fn place_members(
    alloc: Global,
    scope: &ObjectScope<'_>,
    file: &Name,
    owner: u32,
    members: &[Member],
    objects: &mut Items<ObjectDecl>,
) -> Result<(), AllocError>
    ensures { OnOk result (objects.new ≡ fold (with_part (scope_seen scope.now) file.now owner) objects.old (map part_of members.now)) }
{
    for member in members {
        place_member(alloc, scope, file, owner, member, objects)?;
    }
    Ok(())
}

// Adds the objects in a member.
#[cycle(placing)]
#[tactic(auto, unfolding(crate::specs::Placed::with_part))]
fn place_member(
    alloc: Global,
    scope: &ObjectScope<'_>,
    file: &Name,
    owner: u32,
    member: &Member,
    objects: &mut Items<ObjectDecl>,
) -> Result<(), AllocError>
    ensures { OnOk result (objects.new ≡ with_part (scope_seen scope.now) file.now owner objects.old (part_of member.now)) }
{
    match member {
        Member::Property {
            kind,
            name,
            init: Some(init),
            ..
        } => {
            let kind = kind_named(scope.known, kind);
            let first = name.copy(alloc)?;
            let path = Path {
                first,
                second: None,
            };
            place_given(alloc, scope.known, kind, file, owner, path, init, objects)
        }
        Member::Init { path, init, .. } => {
            let kind = kind_under(alloc, scope, path)?;
            let path = path.copy(alloc)?;
            place_given(alloc, scope.known, kind, file, owner, path, init, objects)
        }
        Member::Child(child) if !is_component(scope.named) => {
            place_object(
                alloc,
                scope.known,
                file,
                Some(owner),
                Role::Child,
                child,
                objects,
            )
        }
        _ => Ok(()),
    }
}

// Adds the objects in what is given to a slot of that kind.
#[cycle(placing)]
fn place_given(
    alloc: Global,
    known: &Known,
    kind: Option<Kind>,
    file: &Name,
    owner: u32,
    path: Path,
    init: &Init,
    objects: &mut Items<ObjectDecl>,
) -> Result<(), AllocError>
    ensures { OnOk result (objects.new ≡ with_given known.now kind (within file.now owner (Value path)) objects.old (given_of init.now)) }
{
    match init {
        Init::Object(object) => {
            let role = Role::Value(path);
            if is_wrapped(known, kind, object.get()) {
                let wrapper = wrapper_of(alloc, known, file, owner, role, object.get())?;
                objects.push(wrapper)
            } else {
                place_object(alloc, known, file, Some(owner), role, object.get(), objects)
            }
        }
        Init::Expr(_) => Ok(()),
    }
}

// A Component that declares an object.
#[cycle(placing)]
#[tactic(auto, unfolding(crate::specs::Placed::wrapper_of))]
fn wrapper_of(
    alloc: Global,
    known: &Known,
    file: &Name,
    owner: u32,
    role: Role,
    decl: &Decl,
) -> Result<ObjectDecl, AllocError>
    ensures { IfOk result (λ object. object ≡ wrapper_of known.now (record { file = file.now; owner = Some owner; role = role }) (reading_of decl.now)) }
{
    let inner = component_of(alloc, known, file, decl)?;
    let inner = Some(Shared::new(alloc, inner)?);
    Ok(ObjectDecl {
        base: Base::BuiltIn(BuiltIn::Component),
        owner: Some(owner),
        role,
        id: None,
        slots: Items::new(alloc),
        signals: Items::new(alloc),
        methods: Items::new(alloc),
        inits: Items::new(alloc),
        handlers: Items::new(alloc),
        inner,
        span: decl.span,
    })
}
