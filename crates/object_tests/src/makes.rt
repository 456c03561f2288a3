//! Stores that documents make, and the steps that are walked over them. Each allocation of a making fails in turn
//! where the tests are tried with the number of an allocation that is to fail.

ghost use Rattle.std.specs.Prelude.{IfOk};
ghost use Rattle.qml_types.specs.Sized.{IsSized};

use crate::steps::{Step, count};
use object_tree::Objects;
use qml_ast::{DocFault, Name};
use qml_parse::parse;
use qml_types::{ComponentType, Known, compile};
use shared_value::Shared;
use std::alloc::Global;

/// Two documents, of which the first declares `A`, and the steps that hold in turn of the store in which the component
/// of the second was made in the content item.
pub struct Case {
    pub first: &'static str,
    pub text: &'static str,
    pub steps: &'static [Step],
}

/// What a text declares.
fn compiled(alloc: Global, text: &str, known: &Known) -> Result<ComponentType, DocFault>
    ensures { IfOk result IsSized }
{
    if text.len() > 1_000_000 {
        return Err(DocFault::NoMemory);
    }
    let document = parse(alloc, text.as_bytes())?;
    let file = Name::new(alloc, "Main.qml")?;
    compile(alloc, &file, &document, known)
}

/// What a text declares, where the first one declares `A`.
fn component(alloc: Global, first: &str, text: &str) -> Result<Shared<ComponentType>, DocFault>
    ensures { IfOk result IsSized }
{
    let mut known = Known::new(alloc);
    let inner = Shared::new(alloc, compiled(alloc, first, &known)?)?;
    known.add(Name::new(alloc, "A")?, inner)?;
    Ok(Shared::new(alloc, compiled(alloc, text, &known)?)?)
}

// Whether the content item stands alone, with nothing in it.
fn is_alone(objects: &Objects) -> bool {
    objects.live() == 1 && objects.owned(1).is_empty() && objects.get(2).is_none()
}

// Whether a making has the first serial, also where one failed before it and left nothing.
fn is_made(alloc: Global, objects: &mut Objects, component: &Shared<ComponentType>) -> bool
    requires { IsSized component.now }
{
    let made = objects.make(alloc, component, 1, None);
    if made.is_ok() {
        return made == Ok(2);
    }
    is_alone(objects) && objects.make(alloc, component, 1, None) == Ok(2)
}

// How many steps hold before the first one that doesn't; none where the component isn't made.
fn walked(
    alloc: Global,
    objects: &mut Objects,
    component: &Shared<ComponentType>,
    steps: &[Step],
) -> Result<usize, DocFault>
    requires { IsSized component.now }
{
    if !is_made(alloc, objects, component) {
        return Ok(0);
    }
    count(alloc, objects, steps)
}

/// How many steps of a case hold before the first one that doesn't; none where its component isn't made.
pub fn held(alloc: Global, case: &Case) -> Result<usize, DocFault> {
    let component = component(alloc, case.first, case.text)?;
    let mut objects = Objects::new(alloc)?;
    walked(alloc, &mut objects, &component, case.steps)
}
