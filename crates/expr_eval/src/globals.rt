ghost use Rattle.std.specs.Prelude.{◌≡◌};
ghost use Rattle.expr_eval.specs.Senses.{entry_named, members, global_member, mouse_member};

use crate::found::GlobalName;
use crate::functions::Function;
use crate::sense::Sense;
use qml_ast::{EvalFault, Name, Value};

/// A member of a global. The fault is UnknownName where it has none of that name.
#[tactic(auto, unfolding(crate::specs::Senses::global_member))]
pub(crate) fn global_member(global: GlobalName, name: &Name) -> Result<Sense, EvalFault>
    ensures { result ≡ global_member global name.now }
{
    let name = name.as_str();
    let member = match global {
        GlobalName::Qt => direction(name),
        GlobalName::Math => math_function(name),
        GlobalName::Console => console_function(name),
        GlobalName::Loader => loader_status(name),
    };
    member.ok_or(EvalFault::UnknownName)
}

/// A coordinate of the mouse. The fault is UnknownName where the name is neither `x` nor `y`.
#[tactic(auto, unfolding(crate::specs::Senses::mouse_member))]
pub(crate) fn mouse_member(x: i32, y: i32, name: &Name) -> Result<Sense, EvalFault>
    ensures { result ≡ mouse_member x y name.now }
{
    match name.as_str() {
        "x" => Ok(Sense::Is(Value::Int(x))),
        "y" => Ok(Sense::Is(Value::Int(y))),
        _ => Err(EvalFault::UnknownName),
    }
}

fn direction(name: &str) -> Option<Sense>
    ensures { result ≡ entry_named name.now (members GlobalName.Qt) }
{
    match name {
        "LeftToRight" => Some(Sense::Is(Value::Int(0))),
        "RightToLeft" => Some(Sense::Is(Value::Int(1))),
        _ => None,
    }
}

fn math_function(name: &str) -> Option<Sense>
    ensures { result ≡ entry_named name.now (members GlobalName.Math) }
{
    let function = match name {
        "min" => Function::Min,
        "max" => Function::Max,
        "abs" => Function::Abs,
        "floor" => Function::Floor,
        "ceil" => Function::Ceil,
        "round" => Function::Round,
        _ => return None,
    };
    Some(Sense::Function(function))
}

fn console_function(name: &str) -> Option<Sense>
    ensures { result ≡ entry_named name.now (members GlobalName.Console) }
{
    match name {
        "log" => Some(Sense::Function(Function::Log)),
        _ => None,
    }
}

fn loader_status(name: &str) -> Option<Sense>
    ensures { result ≡ entry_named name.now (members GlobalName.Loader) }
{
    match name {
        "Null" => Some(Sense::Is(Value::Int(0))),
        "Ready" => Some(Sense::Is(Value::Int(1))),
        "Loading" => Some(Sense::Is(Value::Int(2))),
        "Error" => Some(Sense::Is(Value::Int(3))),
        _ => None,
    }
}
