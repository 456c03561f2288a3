ghost use Rattle.std.specs.Prelude.{◌≡◌, ◌≢◌, Err};
ghost use Rattle.expr_eval.specs.Evaluation.{as_value, member, named};
ghost use Rattle.expr_eval.specs.Names.{local_named};
ghost use Rattle.expr_eval.specs.Progress.{Gives, Grows, lifted};
ghost use Rattle.expr_eval.specs.Senses.{value_member};
ghost use Rattle.expr_eval.specs.declared.progress.Progress.{Progress};

use crate::found::Frame;
use crate::globals::{global_member, mouse_member};
use crate::locals::{Local, Locals};
use crate::progress::{Halt, Progress, read_place};
use crate::reader::Reader;
use crate::sense::{Sense, meaning};
use qml_ast::{EvalFault, Name, Value};
use std::alloc::Global;

/// What a name stands for: a local, or what the frame has of that name. The fault is UnknownName where it
/// stands for nothing.
#[tactic(auto, using(crate::proofs::Stops::lifts))]
pub(crate) fn named<R: Reader>(
    alloc: Global,
    name: &Name,
    frame: Frame,
    locals: &Locals,
    reader: &R,
) -> Result<Sense, Halt>
    ensures { (s : Progress) → Gives (lifted (named (R.clean reader.now) (R.means reader.now) (local_named name.now locals.now) frame name.now) s) result s }
{
    match locals.find(name) {
        Some(Local::Plain(value)) => Ok(Sense::Is(value.copy(alloc)?)),
        Some(Local::Mouse(x, y)) => Ok(Sense::Mouse(*x, *y)),
        None => Ok(meaning(reader.look(frame, name))?),
    }
}

/// What a member of something stands for. A place is read first. The faults are UnknownName where there is
/// no such member, NullMember at null, and WrongKind at what has no members.
#[tactic(auto, using(crate::proofs::Stops::stops, crate::proofs::Stops::lifts))]
pub(crate) fn member<R: Reader>(
    alloc: Global,
    of: Sense,
    name: &Name,
    reader: &R,
    progress: &mut Progress,
) -> Result<Sense, Halt>
    ensures value { Gives (member (R.clean reader.now) (R.means reader.now) name.now of progress.old) result progress.new }
    ensures grows { Grows progress.old progress.new }
{
    match of {
        Sense::Is(value) => Ok(value_member(&value, name, reader)?),
        Sense::At(place) => {
            let value = read_place(alloc, place, reader, progress)?;
            Ok(value_member(&value, name, reader)?)
        }
        Sense::Group(serial, group) => Ok(meaning(reader.member(serial, Some(group), name))?),
        Sense::Global(global) => Ok(global_member(global, name)?),
        Sense::Mouse(x, y) => Ok(mouse_member(x, y, name)?),
        Sense::Method(..) | Sense::Signal(..) | Sense::Function(_) => {
            Err(Halt::Faulted(EvalFault::WrongKind))
        }
    }
}

/// The value of what an expression stands for. A place is read, and what is no value is a fault.
pub(crate) fn as_value<R: Reader>(
    alloc: Global,
    sense: Sense,
    reader: &R,
    progress: &mut Progress,
) -> Result<Value, Halt>
    ensures value { Gives (as_value (R.clean reader.now) (R.means reader.now) sense progress.old) result progress.new }
    ensures grows { Grows progress.old progress.new }
{
    match sense {
        Sense::Is(value) => Ok(value),
        Sense::At(place) => read_place(alloc, place, reader, progress),
        Sense::Group(..)
        | Sense::Method(..)
        | Sense::Signal(..)
        | Sense::Global(_)
        | Sense::Function(_)
        | Sense::Mouse(..) => Err(Halt::Faulted(EvalFault::WrongKind)),
    }
}

// What a member of a value stands for.
fn value_member<R: Reader>(value: &Value, name: &Name, reader: &R) -> Result<Sense, EvalFault>
    ensures { result ≡ value_member (R.means reader.now) value.now name.now }
{
    match value {
        Value::Obj(0) => Err(EvalFault::NullMember),
        Value::Obj(serial) => meaning(reader.member(*serial, None, name)),
        _ => Err(EvalFault::WrongKind),
    }
}
