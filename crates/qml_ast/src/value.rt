ghost use Rattle.std.specs.Prelude.{◌≡◌, ◌↔◌, IsTrue, IfOk};
ghost use Rattle.qml_ast.specs.Equality.{are_equal};

use crate::text::Text;
use std::alloc::{AllocError, Global};

/// An edge of an item, or a line through its middle.
#[derive(Clone, Copy, Debug, PartialEq, Eq)]
pub enum Edge {
    Left,
    Right,
    Top,
    Bottom,
    /// From top to bottom, through the middle.
    HCenter,
    /// From left to right, through the middle.
    VCenter,
}

/// An edge of a certain item.
#[derive(Clone, Copy, Debug, PartialEq, Eq)]
pub struct LineRef {
    /// The item's serial.
    pub serial: u64,
    /// Which of its edges.
    pub edge: Edge,
}

/// What an expression gives and a slot holds.
#[derive(Drop)]
pub enum Value {
    Int(i32),
    Bool(bool),
    Str(Text),
    /// Alpha, red, green and blue, from the highest byte to the lowest.
    Color(u32),
    /// An object's serial, or 0 for null.
    Obj(u64),
    /// An edge of an item. `undefined` is none.
    Line(Option<LineRef>),
}

impl Value {
    /// An equal value.
    pub fn copy(&self, alloc: Global) -> Result<Value, AllocError>
        ensures { IfOk result (λ copied. copied ≡ self.now) }
    {
        match self {
            Value::Int(n) => Ok(Value::Int(*n)),
            Value::Bool(b) => Ok(Value::Bool(*b)),
            Value::Str(text) => Ok(Value::Str(text.copy(alloc)?)),
            Value::Color(argb) => Ok(Value::Color(*argb)),
            Value::Obj(serial) => Ok(Value::Obj(*serial)),
            Value::Line(line) => Ok(Value::Line(*line)),
        }
    }
}

/// Whether the values are of one kind and equal. Nothing is converted.
pub fn equal(a: &Value, b: &Value) -> bool
    ensures same { IsTrue result ↔ (a.now ≡ b.now) }
    ensures value { result ≡ are_equal a.now b.now }
{
    match (a, b) {
        (Value::Int(x), Value::Int(y)) => x == y,
        (Value::Bool(x), Value::Bool(y)) => x == y,
        (Value::Str(x), Value::Str(y)) => x.is(y),
        (Value::Color(x), Value::Color(y)) => x == y,
        (Value::Obj(x), Value::Obj(y)) => x == y,
        (Value::Line(x), Value::Line(y)) => x == y,
        _ => false,
    }
}
