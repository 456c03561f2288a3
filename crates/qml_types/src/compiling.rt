ghost use Rattle.std.specs.Prelude.{IfOk};
ghost use Rattle.qml_types.specs.Compiled.{compiled, Gives};
ghost use Rattle.qml_types.specs.Sized.{IsSized};

use crate::component::ComponentType;
use crate::document_rules::component_faults;
use crate::known::Known;
use crate::placing::component_of;
use qml_ast::{DocFault, Document, Name};
use std::alloc::Global;

/// The component type that a document declares, whose file has that name, where `known` has the document
/// types that can be named. The name decides nothing but the component type's `file`. The component type keeps
/// its sizes.
///
/// # Errors
///
/// The first unlawful declaration, by its place in the text; of two at one place the one that comes first
/// in `DocFault`. The places are those of names, and of literals or of an object's type name for
/// `WrongLiteral`.
///
/// - `UnknownType`: no type has this name, or a property or a signal's parameter is of no such kind.
/// - `UnknownProperty`: the object has no such property or signal, or a `Component` has no child.
/// - `BadId`: an id begins with an upper-case letter.
/// - `DuplicateId`: an earlier object of the component has the id, or this object has one.
/// - `DuplicateName`: the object or its type has a property, signal or function of the name already, or the
///   path is initialised a second time, or a parameter before has the name; or this is a second child of a
///   `Component`.
/// - `WrongLiteral`: the property does not take a literal of this kind, or no object.
/// - `ReadOnly`: documents do not initialise the property.
/// - `NoMemory`: memory ran out.
#[tactic(auto, using(crate::proofs::Keeps::component_sized), unfolding(crate::specs::Compiled::compiled))]
pub fn compile(
    alloc: Global,
    file: &Name,
    document: &Document,
    known: &Known,
) -> Result<ComponentType, DocFault>
    ensures declared { Gives (compiled file.now document.now known.now) result }
    ensures sized { IfOk result IsSized }
{
    known.sized();
    let mut first = None;
    component_faults(alloc, known, &document.root, &mut first)?;
    match first {
        Some(fault) => Err(fault),
        None => Ok(component_of(alloc, known, file, &document.root)?),
    }
}
