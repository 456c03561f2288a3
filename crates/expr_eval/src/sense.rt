ghost use Rattle.std.specs.Prelude.{◌≡◌};
ghost use Rattle.expr_eval.specs.Senses.{meaning};

use crate::found::{Found, GlobalName, GroupName};
use crate::functions::Function;
use qml_ast::{EvalFault, Place, Value};

/// What an expression stands for before its value is asked for.
#[derive(Drop)]
pub(crate) enum Sense {
    Is(Value),
    /// A place, which is read where its value is wanted.
    At(Place),
    Group(u64, GroupName),
    Method(u64, u32),
    Signal(u64, u32),
    Global(GlobalName),
    Function(Function),
    Mouse(i32, i32),
}

/// What a name or a member stands for. The fault is UnknownName where it stands for nothing.
pub(crate) fn meaning(found: Found) -> Result<Sense, EvalFault>
    ensures { result ≡ meaning found }
{
    match found {
        Found::Place(place) => Ok(Sense::At(place)),
        Found::Object(serial) => Ok(Sense::Is(Value::Obj(serial))),
        Found::Group(serial, group) => Ok(Sense::Group(serial, group)),
        Found::Method(serial, method) => Ok(Sense::Method(serial, method)),
        Found::Signal(serial, signal) => Ok(Sense::Signal(serial, signal)),
        Found::Global(global) => Ok(Sense::Global(global)),
        Found::None => Err(EvalFault::UnknownName),
    }
}
