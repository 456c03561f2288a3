ghost use Rattle.std.specs.Prelude.{◌≡◌};
ghost use Rattle.expr_eval.specs.Evaluation.{is_value};
ghost use Rattle.expr_eval.specs.Operators.{applied, are_taken, arity};
ghost use Rattle.expr_eval.specs.Progress.{Gives, lifted};
ghost use Rattle.expr_eval.specs.declared.progress.Progress.{Progress};

use crate::operators::negated;
use crate::progress::Halt;
use crate::sense::Sense;
use qml_ast::{EvalFault, Value};

/// A function that is known everywhere.
#[derive(Clone, Copy)]
pub(crate) enum Function {
    /// `Math.min`
    Min,
    /// `Math.max`
    Max,
    /// `Math.abs`
    Abs,
    /// `Math.floor`
    Floor,
    /// `Math.ceil`
    Ceil,
    /// `Math.round`
    Round,
    /// `console.log`, which is called as a statement alone.
    Log,
}

/// Whether a function takes so many arguments within an expression. There what is called as a statement
/// alone takes no number of them.
pub(crate) fn takes(function: Function, count: usize) -> bool
    ensures { result ≡ are_taken (arity function) count }
{
    match function {
        Function::Min | Function::Max => count == 2,
        Function::Abs | Function::Floor | Function::Ceil | Function::Round => count == 1,
        Function::Log => false,
    }
}

/// What a function gives for its arguments. The faults are WrongKind where an argument is no number, and
/// Overflow for the magnitude of -2147483648.
#[tactic(auto, using(crate::proofs::Stops::lifts_value))]
pub(crate) fn applied(function: Function, arguments: &[Value]) -> Result<Sense, Halt>
    ensures { (s : Progress) → Gives (is_value (lifted (applied function arguments.now)) s) result s }
{
    Ok(Sense::Is(applied_value(function, arguments)?))
}

// What a function gives for its arguments, as a value.
fn applied_value(function: Function, arguments: &[Value]) -> Result<Value, EvalFault>
    ensures { result ≡ applied function arguments.now }
{
    match (function, arguments) {
        (Function::Min, [Value::Int(x), Value::Int(y)]) => {
            let (x, y) = (*x, *y);
            Ok(Value::Int(x.min(y)))
        }
        (Function::Max, [Value::Int(x), Value::Int(y)]) => {
            let (x, y) = (*x, *y);
            Ok(Value::Int(x.max(y)))
        }
        (Function::Abs, [Value::Int(n)]) if *n < 0 => negated(&arguments[0]),
        (Function::Abs | Function::Floor | Function::Ceil | Function::Round, [Value::Int(n)]) => Ok(
            Value::Int(*n),
        ),
        _ => Err(EvalFault::WrongKind),
    }
}
