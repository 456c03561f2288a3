//! Stores that documents make, and the steps that are walked over them.

ghost use Rattle.std.specs.Prelude.{IfOk};
ghost use Rattle.qml_types.specs.Sized.{IsSized};

use crate::steps::{Step, are_steps};
use binding_engine::Engine;
use object_tree::{MakeFault, Objects};
use qml_ast::{DocFault, Name};
use qml_parse::parse;
use qml_types::{ComponentType, Known, compile};
use shared_value::Shared;
use std::alloc::Global;

/// A document, and the steps that hold in turn of the store in which its component was made in the content item.
pub struct Case {
    pub text: &'static str,
    pub steps: &'static [Step],
}

/// What a text declares.
fn compiled(alloc: Global, text: &str, known: &Known) -> Result<ComponentType, DocFault>
    ensures { IfOk result IsSized }
{
    if text.len() > 1_000_000 {
        return Err(DocFault::NoMemory);
    }
    let document = parse(alloc, text.as_bytes())?;
    let file = Name::new(alloc, "Main.qml")?;
    compile(alloc, &file, &document, known)
}

// Whether the steps hold once the component is made.
fn walks(
    alloc: Global,
    objects: &mut Objects,
    component: &Shared<ComponentType>,
    steps: &[Step],
) -> Result<bool, DocFault>
    requires { IsSized component.now }
{
    match objects.make(alloc, component, 1, None) {
        Ok(_) => are_steps(alloc, &mut Engine::new(), objects, steps),
        Err(MakeFault::Full | MakeFault::Deep | MakeFault::NoMemory) => Err(DocFault::NoMemory),
    }
}

/// Whether the steps of a case hold.
pub fn is_so(alloc: Global, case: &Case) -> Result<bool, DocFault> {
    let component = Shared::new(alloc, compiled(alloc, case.text, &Known::new(alloc))?)?;
    let mut objects = Objects::new(alloc)?;
    walks(alloc, &mut objects, &component, case.steps)
}
