ghost use Rattle.std.specs.Prelude.{◌≡◌, ◌≢◌, int_lt, int_le, Err};
ghost use Rattle.qml_ast.specs.declared.eval_fault.EvalFault.TheVariants.{NoMemory};
ghost use Rattle.expr_eval.specs.Evaluation.{is_value};
ghost use Rattle.expr_eval.specs.Operators.{binary_of, unary_of, negated, plain_number, ordered};
ghost use Rattle.expr_eval.specs.Progress.{Gives, lifted};
ghost use Rattle.expr_eval.specs.declared.progress.Progress.{Progress};

use crate::progress::Halt;
use crate::sense::Sense;
use qml_ast::{BinOp, EvalFault, UnOp, Value, add, div, equal, mul, rem, sub, truth};
use std::alloc::Global;

/// What an operator gives for two values. The faults are those of the arithmetic, and WrongKind where an
/// order is asked of values that are not two numbers. Equality converts nothing.
#[tactic(auto, using(crate::proofs::Stops::lifts_value))]
pub(crate) fn binary(
    alloc: Global,
    operator: BinOp,
    left: &Value,
    right: &Value,
) -> Result<Sense, Halt>
    ensures { (s : Progress) → Gives (is_value (lifted (binary_of operator left.now right.now)) s) result s }
{
    Ok(Sense::Is(binary_value(alloc, operator, left, right)?))
}

/// What an operator gives for one value. The faults are WrongKind where a sign stands before another kind
/// than a number, and Overflow for the negation of -2147483648.
#[tactic(auto, using(crate::proofs::Stops::lifts_value))]
pub(crate) fn unary(operator: UnOp, operand: &Value) -> Result<Sense, Halt>
    ensures { (s : Progress) → Gives (is_value (lifted (unary_of operator operand.now)) s) result s }
{
    Ok(Sense::Is(unary_value(operator, operand)?))
}

// What an operator gives for two values, as a value.
#[tactic(auto, unfolding(crate::specs::Operators::binary_of))]
fn binary_value(
    alloc: Global,
    operator: BinOp,
    left: &Value,
    right: &Value,
) -> Result<Value, EvalFault>
    ensures { result ≢ Err NoMemory → result ≡ binary_of operator left.now right.now }
{
    match operator {
        BinOp::Add => add(alloc, left, right),
        BinOp::Sub => sub(left, right),
        BinOp::Mul => mul(left, right),
        BinOp::Div => div(left, right),
        BinOp::Rem => rem(left, right),
        BinOp::Lt => is_below(left, right),
        BinOp::Le => is_at_most(left, right),
        BinOp::Gt => is_below(right, left),
        BinOp::Ge => is_at_most(right, left),
        BinOp::Eq | BinOp::Eq3 => Ok(Value::Bool(equal(left, right))),
        BinOp::Ne | BinOp::Ne3 => Ok(Value::Bool(!equal(left, right))),
    }
}

// What an operator gives for one value, as a value.
#[tactic(auto, unfolding(crate::specs::Operators::unary_of))]
fn unary_value(operator: UnOp, operand: &Value) -> Result<Value, EvalFault>
    ensures { result ≡ unary_of operator operand.now }
{
    match operator {
        UnOp::Neg => negated(operand),
        UnOp::Plus => plain_number(operand),
        UnOp::Not => Ok(Value::Bool(!truth(operand))),
    }
}

/// A number with the other sign.
pub(crate) fn negated(value: &Value) -> Result<Value, EvalFault>
    ensures { result ≡ negated value.now }
{
    sub(&Value::Int(0), value)
}

// A number as it is.
fn plain_number(value: &Value) -> Result<Value, EvalFault>
    ensures { result ≡ plain_number value.now }
{
    match value {
        Value::Int(n) => Ok(Value::Int(*n)),
        _ => Err(EvalFault::WrongKind),
    }
}

// Whether the first of two numbers is the smaller one.
fn is_below(a: &Value, b: &Value) -> Result<Value, EvalFault>
    ensures { result ≡ ordered int_lt a.now b.now }
{
    let (Value::Int(x), Value::Int(y)) = (a, b) else {
        return Err(EvalFault::WrongKind);
    };
    Ok(Value::Bool(*x < *y))
}

// Whether the first of two numbers is not the greater one.
fn is_at_most(a: &Value, b: &Value) -> Result<Value, EvalFault>
    ensures { result ≡ ordered int_le a.now b.now }
{
    let (Value::Int(x), Value::Int(y)) = (a, b) else {
        return Err(EvalFault::WrongKind);
    };
    Ok(Value::Bool(*x <= *y))
}
