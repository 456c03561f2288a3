//! Stores that documents make, and what their slots show.

ghost use Rattle.std.specs.Prelude.{IfOk};
ghost use Rattle.qml_types.specs.Sized.{IsSized};

use object_tree::{MakeFault, Objects};
use qml_ast::{DocFault, Name, Place, Side, Value};
use qml_parse::parse;
use qml_types::{ComponentType, Known, compile};
use shared_value::Shared;
use std::alloc::Global;

/// What a text declares.
fn compiled(alloc: Global, text: &str, known: &Known) -> Result<ComponentType, DocFault>
    ensures { IfOk result IsSized }
{
    if text.len() > 1_000_000 {
        return Err(DocFault::NoMemory);
    }
    let document = parse(alloc, text.as_bytes())?;
    let file = Name::new(alloc, "Main.qml")?;
    compile(alloc, &file, &document, known)
}

/// What a text declares.
pub fn component(alloc: Global, text: &str) -> Result<Shared<ComponentType>, DocFault>
    ensures { IfOk result IsSized }
{
    let known = Known::new(alloc);
    Ok(Shared::new(alloc, compiled(alloc, text, &known)?)?)
}

/// The serial of the root of a component that is made in an object.
pub fn grow(
    alloc: Global,
    objects: &mut Objects,
    component: &Shared<ComponentType>,
    parent: u64,
) -> Result<u64, DocFault>
    requires { IsSized component.now }
{
    match objects.make(alloc, component, parent, None) {
        Ok(serial) => Ok(serial),
        Err(MakeFault::Full | MakeFault::Deep | MakeFault::NoMemory) => Err(DocFault::NoMemory),
    }
}

/// The place of what a slot shows.
fn shown(serial: u64, slot: u32) -> Place {
    Place {
        serial,
        slot,
        side: Side::Shown,
    }
}

/// Has a slot show a number.
pub fn show_int(objects: &mut Objects, serial: u64, slot: u32, n: i32) {
    objects.keep(shown(serial, slot), Value::Int(n));
}

/// Has a slot show a truth value.
pub fn show_bool(objects: &mut Objects, serial: u64, slot: u32, b: bool) {
    objects.keep(shown(serial, slot), Value::Bool(b));
}

/// Has a slot show a colour.
pub fn show_color(objects: &mut Objects, serial: u64, slot: u32, argb: u32) {
    objects.keep(shown(serial, slot), Value::Color(argb));
}
