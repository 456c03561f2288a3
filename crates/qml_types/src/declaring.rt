ghost use Rattle.std.specs.Prelude.{◌≡◌, ◌++◌, map, OnOk, IfOk, unwrap_or, option_map};
ghost use Rattle.std.specs.List.{flat_map};
ghost use Rattle.qml_types.specs.Placed.{slots_in, signals_in, methods_in, inits_in, handlers_in, ids_in, param_of, bound, first_of_all};
ghost use Rattle.qml_types.specs.Readings.{part_of, given_of};
ghost use Rattle.qml_types.specs.Types.{base_of};
ghost use Rattle.qml_types.specs.declared.component.Base.TheVariants as base;
ghost use Rattle.type_table.specs.declared.built_in.BuiltIn.TheVariants as built_in;

use crate::component::{Base, HandlerDecl, InitDecl, MethodDecl, SignalDecl, SlotDecl};
use crate::kinds::{initial_of, kind_or_var};
use crate::known::Known;
use crate::type_ref::TypeRef;
use qml_ast::{Init, Member, MethodParam, Name, Path, SignalParam, Span};
use sqlite_items::Items;
use std::alloc::{AllocError, Global};
use type_table::{BuiltIn, Kind};

// Adds a property that a member declares.
fn add_slot(
    alloc: Global,
    known: &Known,
    member: &Member,
    slots: &mut Items<SlotDecl>,
) -> Result<(), AllocError>
    ensures { OnOk result (slots.new ≡ slots.old ++ slots_in known.now (part_of member.now)) }
{
    match member {
        Member::Property {
            fixed,
            kind,
            name,
            span,
            ..
        } => {
            let kind = kind_or_var(known, kind);
            let name = name.copy(alloc)?;
            slots.push(SlotDecl {
                name,
                kind,
                initial: initial_of(kind),
                read_only: *fixed,
                span: *span,
            })
        }
        _ => Ok(()),
    }
}

/// The properties that an object's members declare.
pub fn slots_of(
    alloc: Global,
    known: &Known,
    members: &[Member],
) -> Result<Items<SlotDecl>, AllocError>
    ensures { IfOk result (λ slots. slots ≡ flat_map (slots_in known.now) (map part_of members.now)) }
{
    let mut slots = Items::new(alloc);
    for member in members {
        add_slot(alloc, known, member, &mut slots)?;
    }
    Ok(slots)
}

// The parameters of a signal, each with what it holds.
fn signal_params(
    alloc: Global,
    known: &Known,
    params: &[SignalParam],
) -> Result<Items<(Name, Kind)>, AllocError>
    ensures { IfOk result (λ made. made ≡ map (param_of known.now) params.now) }
{
    let mut made = Items::new(alloc);
    for param in params {
        let name = param.name.copy(alloc)?;
        made.push((name, kind_or_var(known, &param.kind)))?;
    }
    Ok(made)
}

// Adds a signal that a member declares.
fn add_signal(
    alloc: Global,
    known: &Known,
    member: &Member,
    signals: &mut Items<SignalDecl>,
) -> Result<(), AllocError>
    ensures { OnOk result (signals.new ≡ signals.old ++ signals_in known.now (part_of member.now)) }
{
    match member {
        Member::Signal { name, params, span } => {
            let params = signal_params(alloc, known, params.as_slice())?;
            let name = name.copy(alloc)?;
            signals.push(SignalDecl {
                name,
                params,
                span: *span,
            })
        }
        _ => Ok(()),
    }
}

/// The signals that an object's members declare.
pub fn signals_of(
    alloc: Global,
    known: &Known,
    members: &[Member],
) -> Result<Items<SignalDecl>, AllocError>
    ensures { IfOk result (λ signals. signals ≡ flat_map (signals_in known.now) (map part_of members.now)) }
{
    let mut signals = Items::new(alloc);
    for member in members {
        add_signal(alloc, known, member, &mut signals)?;
    }
    Ok(signals)
}

// The names of a function's parameters.
fn method_params(alloc: Global, params: &[MethodParam]) -> Result<Items<Name>, AllocError>
    ensures { IfOk result (λ made. made ≡ map (λ p. p.name) params.now) }
{
    let mut made = Items::new(alloc);
    for param in params {
        made.push(param.name.copy(alloc)?)?;
    }
    Ok(made)
}

// Adds a function that a member declares.
fn add_method(
    alloc: Global,
    member: &Member,
    methods: &mut Items<MethodDecl>,
) -> Result<(), AllocError>
    ensures { OnOk result (methods.new ≡ methods.old ++ methods_in (part_of member.now)) }
{
    match member {
        Member::Method {
            name,
            params,
            body,
            span,
        } => {
            let params = method_params(alloc, params.as_slice())?;
            let name = name.copy(alloc)?;
            let body = body.share()?;
            methods.push(MethodDecl {
                name,
                params,
                body,
                span: *span,
            })
        }
        _ => Ok(()),
    }
}

/// The functions that an object's members declare.
pub fn methods_of(alloc: Global, members: &[Member]) -> Result<Items<MethodDecl>, AllocError>
    ensures { IfOk result (λ methods. methods ≡ flat_map methods_in (map part_of members.now)) }
{
    let mut methods = Items::new(alloc);
    for member in members {
        add_method(alloc, member, &mut methods)?;
    }
    Ok(methods)
}

// Adds the expression that is given to a path, if it is given one.
fn add_bound(
    path: Path,
    init: &Init,
    at: Span,
    inits: &mut Items<InitDecl>,
) -> Result<(), AllocError>
    ensures { OnOk result (inits.new ≡ inits.old ++ bound path (given_of init.now) at) }
{
    match init {
        Init::Expr(expr) => {
            let expr = expr.share()?;
            inits.push(InitDecl {
                path,
                expr,
                span: at,
            })
        }
        Init::Object(_) => Ok(()),
    }
}

// Adds what a member binds a slot to.
fn add_init(alloc: Global, member: &Member, inits: &mut Items<InitDecl>) -> Result<(), AllocError>
    ensures { OnOk result (inits.new ≡ inits.old ++ inits_in (part_of member.now)) }
{
    match member {
        Member::Property {
            name,
            init: Some(init),
            span,
            ..
        } => {
            let first = name.copy(alloc)?;
            add_bound(
                Path {
                    first,
                    second: None,
                },
                init,
                *span,
                inits,
            )
        }
        Member::Init {
            path,
            init,
            span,
            ..
        } => add_bound(path.copy(alloc)?, init, *span, inits),
        _ => Ok(()),
    }
}

/// What an object's members bind its slots to.
pub fn inits_of(alloc: Global, members: &[Member]) -> Result<Items<InitDecl>, AllocError>
    ensures { IfOk result (λ inits. inits ≡ flat_map inits_in (map part_of members.now)) }
{
    let mut inits = Items::new(alloc);
    for member in members {
        add_init(alloc, member, &mut inits)?;
    }
    Ok(inits)
}

// Adds a handler.
fn add_handler(
    alloc: Global,
    member: &Member,
    handlers: &mut Items<HandlerDecl>,
) -> Result<(), AllocError>
    ensures { OnOk result (handlers.new ≡ handlers.old ++ handlers_in (part_of member.now)) }
{
    match member {
        Member::Handler { path, body, span } => {
            let path = path.copy(alloc)?;
            let body = body.share()?;
            handlers.push(HandlerDecl {
                path,
                body,
                span: *span,
            })
        }
        _ => Ok(()),
    }
}

/// The handlers among an object's members.
pub fn handlers_of(alloc: Global, members: &[Member]) -> Result<Items<HandlerDecl>, AllocError>
    ensures { IfOk result (λ handlers. handlers ≡ flat_map handlers_in (map part_of members.now)) }
{
    let mut handlers = Items::new(alloc);
    for member in members {
        add_handler(alloc, member, &mut handlers)?;
    }
    Ok(handlers)
}

/// The first id among an object's members.
pub fn id_of(alloc: Global, members: &[Member]) -> Result<Option<Name>, AllocError>
    ensures { IfOk result (λ id. id ≡ first_of_all (flat_map ids_in (map part_of members.now))) }
{
    for member in members {
        if let Member::Id(name, _) = member {
            return Ok(Some(name.copy(alloc)?));
        }
    }
    Ok(None)
}

/// What objects of the type are made of first. Objects of unknown type are said to be plain objects.
pub fn base_for(of: Option<TypeRef<'_>>) -> Result<Base, AllocError>
    ensures { IfOk result (λ made. made ≡ unwrap_or (option_map base_of of.entry) (base.BuiltIn built_in.QtObject)) }
{
    match of {
        Some(TypeRef::Document(known)) => Ok(Base::Document(known.component().share()?)),
        Some(TypeRef::BuiltIn(built_in)) => Ok(Base::BuiltIn(built_in)),
        None => Ok(Base::BuiltIn(BuiltIn::QtObject)),
    }
}
