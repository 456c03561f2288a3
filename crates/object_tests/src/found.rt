//! What names stand for.

use expr_eval::{Found, Frame};
use object_tree::Objects;
use qml_ast::{DocFault, Name};
use std::alloc::Global;

// The name of a text.
fn named(alloc: Global, text: &str) -> Result<Name, DocFault> {
    if text.len() > 100 {
        return Err(DocFault::NoMemory);
    }
    Ok(Name::new(alloc, text)?)
}

// Whether that is what was wanted.
fn is_same(found: Found, wanted: Found) -> bool {
    match wanted {
        Found::Place(place) => matches!(found, Found::Place(at) if at == place),
        Found::Object(serial) => matches!(found, Found::Object(of) if of == serial),
        Found::Group(serial, group) => {
            matches!(found, Found::Group(of, name) if of == serial && name == group)
        }
        Found::Method(serial, number) => {
            matches!(found, Found::Method(of, at) if of == serial && at == number)
        }
        Found::Signal(serial, number) => {
            matches!(found, Found::Signal(of, at) if of == serial && at == number)
        }
        Found::Global(global) => matches!(found, Found::Global(name) if name == global),
        Found::None => matches!(found, Found::None),
    }
}

/// Whether a name stands for that in an expression of that frame.
pub fn stands_for(
    alloc: Global,
    objects: &Objects,
    frame: Frame,
    name: &str,
    wanted: Found,
) -> Result<bool, DocFault> {
    let name = named(alloc, name)?;
    Ok(is_same(objects.look(frame, &name), wanted))
}

/// Whether a member of that name of the object 3 is that.
pub fn is_member(
    alloc: Global,
    objects: &Objects,
    name: &str,
    wanted: Found,
) -> Result<bool, DocFault> {
    let name = named(alloc, name)?;
    Ok(is_same(objects.member(3, None, &name), wanted))
}
