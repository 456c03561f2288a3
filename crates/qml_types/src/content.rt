ghost use Rattle.std.specs.Prelude.{◌≡◌, map, IfOk};
ghost use Rattle.qml_types.specs.Contents.{content_in, interface_in, behaviour_in};
ghost use Rattle.qml_types.specs.Readings.{part_of};

use crate::component::{HandlerDecl, InitDecl, MethodDecl, SignalDecl, SlotDecl};
use crate::declaring::{handlers_of, id_of, inits_of, methods_of, signals_of, slots_of};
use crate::known::Known;
use qml_ast::{Member, Name};
use sqlite_items::Items;
use std::alloc::{AllocError, Global};

/// What an object declares for others to use.
#[derive(Drop)]
pub struct Interface {
    pub slots: Items<SlotDecl>,
    pub signals: Items<SignalDecl>,
    pub methods: Items<MethodDecl>,
}

/// What an object does with what it has.
#[derive(Drop)]
pub struct Behaviour {
    pub inits: Items<InitDecl>,
    pub handlers: Items<HandlerDecl>,
}

/// All that an object's members declare but for the objects in it.
#[derive(Drop)]
pub struct Content {
    pub id: Option<Name>,
    pub interface: Interface,
    pub behaviour: Behaviour,
}

fn interface_of(alloc: Global, known: &Known, members: &[Member]) -> Result<Interface, AllocError>
    ensures { IfOk result (λ interface. interface ≡ interface_in known.now (map part_of members.now)) }
{
    let slots = slots_of(alloc, known, members)?;
    let signals = signals_of(alloc, known, members)?;
    let methods = methods_of(alloc, members)?;
    Ok(Interface {
        slots,
        signals,
        methods,
    })
}

fn behaviour_of(alloc: Global, members: &[Member]) -> Result<Behaviour, AllocError>
    ensures { IfOk result (λ behaviour. behaviour ≡ behaviour_in (map part_of members.now)) }
{
    let inits = inits_of(alloc, members)?;
    let handlers = handlers_of(alloc, members)?;
    Ok(Behaviour { inits, handlers })
}

/// What these members declare.
pub fn content_of(alloc: Global, known: &Known, members: &[Member]) -> Result<Content, AllocError>
    ensures { IfOk result (λ content. content ≡ content_in known.now (map part_of members.now)) }
{
    let id = id_of(alloc, members)?;
    let interface = interface_of(alloc, known, members)?;
    let behaviour = behaviour_of(alloc, members)?;
    Ok(Content {
        id,
        interface,
        behaviour,
    })
}
