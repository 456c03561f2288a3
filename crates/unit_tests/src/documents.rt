//! What texts declare.

ghost use Rattle.std.specs.Prelude.{IfOk};
ghost use Rattle.qml_types.specs.Sized.{IsSized};

use qml_ast::{DocFault, Name};
use qml_parse::parse;
use qml_types::{ComponentType, Known, compile};
use shared_value::Shared;
use std::alloc::Global;

/// What a text declares.
pub(crate) fn compiled(alloc: Global, text: &str, known: &Known) -> Result<ComponentType, DocFault>
    ensures { IfOk result IsSized }
{
    if text.len() > 1_000_000 {
        return Err(DocFault::NoMemory);
    }
    let document = parse(alloc, text.as_bytes())?;
    let file = Name::new(alloc, "Main.qml")?;
    compile(alloc, &file, &document, known)
}

/// What a text declares over known types, as the one type `A`.
pub(crate) fn known_as_a(alloc: Global, text: &str, known: &Known) -> Result<Known, DocFault> {
    let component = compiled(alloc, text, known)?;
    let component = Shared::new(alloc, component)?;
    let name = Name::new(alloc, "A")?;
    let mut declared = Known::new(alloc);
    declared.add(name, component)?;
    Ok(declared)
}
