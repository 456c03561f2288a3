ghost use Rattle.std.specs.Prelude.{◌≡◌, ◌≢◌, ◌++◌, IfSome};
ghost use Rattle.qml_ast.specs.Arithmetic.{sum_of, difference_of, product_of, quotient_of, remainder_of, truth_of, text_value, AreJoined};
ghost use Rattle.qml_ast.specs.TextForm.{text_of};

use crate::eval_fault::EvalFault;
use crate::text::Text;
use crate::value::Value;
use std::alloc::Global;

/// `a + b`: the sum of two numbers, or both texts joined where one of the values is a text. The faults
/// are Overflow for a sum that does not fit 32 bits, TextTooLong for a text of more than 65,536 bytes,
/// WrongKind for other kinds, and NoMemory where memory for a text ran out.
pub fn add(alloc: Global, a: &Value, b: &Value) -> Result<Value, EvalFault>
    ensures value { result ≢ Err EvalFault.NoMemory → result ≡ sum_of a.now b.now }
    ensures no_memory { result ≡ Err EvalFault.NoMemory → AreJoined a.now b.now }
{
    match (a, b) {
        (Value::Int(x), Value::Int(y)) => number(x.checked_add(*y)),
        (Value::Str(_), _) | (_, Value::Str(_)) => join(alloc, a, b),
        _ => Err(EvalFault::WrongKind),
    }
}

/// `a - b`. The faults are Overflow for a difference that does not fit 32 bits, and WrongKind where the
/// values are not two numbers.
pub fn sub(a: &Value, b: &Value) -> Result<Value, EvalFault>
    ensures { result ≡ difference_of a.now b.now }
{
    let (Value::Int(x), Value::Int(y)) = (a, b) else {
        return Err(EvalFault::WrongKind);
    };
    number(x.checked_sub(*y))
}

/// `a * b`. The faults are Overflow for a product that does not fit 32 bits, and WrongKind where the
/// values are not two numbers.
pub fn mul(a: &Value, b: &Value) -> Result<Value, EvalFault>
    ensures { result ≡ product_of a.now b.now }
{
    let (Value::Int(x), Value::Int(y)) = (a, b) else {
        return Err(EvalFault::WrongKind);
    };
    number(x.checked_mul(*y))
}

/// `a / b`, truncated. The faults are WrongKind where the values are not two numbers, ZeroDivisor for a
/// division by 0, and Overflow for -2147483648 / -1.
pub fn div(a: &Value, b: &Value) -> Result<Value, EvalFault>
    ensures { result ≡ quotient_of a.now b.now }
{
    match (a, b) {
        (Value::Int(_), Value::Int(0)) => Err(EvalFault::ZeroDivisor),
        (Value::Int(x), Value::Int(y)) => number(x.checked_div(*y)),
        _ => Err(EvalFault::WrongKind),
    }
}

/// `a % b`, with the sign of `a`. The faults are WrongKind where the values are not two numbers, and
/// ZeroDivisor for a division by 0. -2147483648 % -1 is 0.
pub fn rem(a: &Value, b: &Value) -> Result<Value, EvalFault>
    ensures { result ≡ remainder_of a.now b.now }
{
    let (Value::Int(x), Value::Int(y)) = (a, b) else {
        return Err(EvalFault::WrongKind);
    };
    match *y {
        0 => Err(EvalFault::ZeroDivisor),
        -1 => Ok(Value::Int(0)),
        y => Ok(Value::Int(*x % y)),
    }
}

/// The value as a condition: false, 0, the empty text, null and `undefined` are false.
pub fn truth(value: &Value) -> bool
    ensures { result ≡ truth_of value.now }
{
    match value {
        Value::Int(n) => *n != 0,
        Value::Bool(b) => *b,
        Value::Str(text) => !text.as_bytes().is_empty(),
        Value::Color(_) => true,
        Value::Obj(serial) => *serial != 0,
        Value::Line(line) => line.is_some(),
    }
}

// Both texts joined.
fn join(alloc: Global, a: &Value, b: &Value) -> Result<Value, EvalFault>
    ensures { result ≢ Err EvalFault.NoMemory → result ≡ text_value (text_of a.now ++ text_of b.now) }
{
    let text = format!(in alloc; "{a}{b}")?;
    if text.len() > 65536 {
        return Err(EvalFault::TextTooLong);
    }
    Ok(Value::Str(Text::from_string(text)))
}

// A number that fits, as a value.
fn number(n: Option<i32>) -> Result<Value, EvalFault>
    ensures some { IfSome n (λ fitting. result ≡ Ok (Value.Int fitting)) }
    ensures none { n ≡ None → result ≡ Err EvalFault.Overflow }
{
    n.map(Value::Int).ok_or(EvalFault::Overflow)
}
