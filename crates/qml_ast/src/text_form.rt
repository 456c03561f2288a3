ghost use Rattle.std.specs.Prelude.{◌≡◌, Some, IfOk};
ghost use Rattle.qml_ast.specs.TextForm.{text_of, color_text, byte_text};

use crate::text::Text;
use crate::value::Value;
use std::alloc::{AllocError, Global};
use std::fmt::{self, Display, Formatter};

/// The text of a value: a number in decimal, `true` or `false`, a text itself, `#rrggbb` for an opaque
/// colour and `#aarrggbb` for another in lower-case hexadecimal digits, `null` or `object`, and
/// `undefined` or `line`.
pub fn to_text(alloc: Global, value: &Value) -> Result<Text, AllocError>
    ensures { IfOk result (λ text. text ≡ text_of value.now) }
{
    match value {
        Value::Int(n) => {
            let n = *n;
            Ok(Text::from_string(n.to_string(alloc)?))
        }
        Value::Str(text) => text.copy(alloc),
        _ => Ok(Text::from_string(value.to_string(alloc)?)),
    }
}

impl Display for Value {
    ghost output = { λ value. Some (text_of value) };

    /// The value's text, as `to_text` gives it.
    fn fmt<W: fmt::Write>(&self, f: &mut Formatter<W>) -> fmt::Result {
        match self {
            Value::Int(n) => write!(f, "{n}"),
            Value::Bool(b) => write!(f, "{b}"),
            Value::Str(text) => f.write_str(text.as_str()),
            Value::Color(argb) => write!(f, "{}", Argb(*argb)),
            Value::Obj(0) => f.write_str("null"),
            Value::Obj(_) => f.write_str("object"),
            Value::Line(None) => f.write_str("undefined"),
            Value::Line(Some(_)) => f.write_str("line"),
        }
    }
}

// A colour: alpha, red, green and blue, from the highest byte to the lowest.
#[derive(Clone, Copy)]
struct Argb(u32);

impl Display for Argb {
    ghost output = { λ color. Some (color_text color.0) };

    fn fmt<W: fmt::Write>(&self, f: &mut Formatter<W>) -> fmt::Result {
        let [alpha, red, green, blue] = self.0.to_be_bytes().map(Hex);
        if alpha.0 == 255 {
            write!(f, "#{red}{green}{blue}")
        } else {
            write!(f, "#{alpha}{red}{green}{blue}")
        }
    }
}

// A byte as two hexadecimal digits.
#[derive(Clone, Copy)]
struct Hex(u8);

impl Display for Hex {
    ghost output = { λ byte. Some (byte_text byte.0) };

    fn fmt<W: fmt::Write>(&self, f: &mut Formatter<W>) -> fmt::Result {
        let byte = self.0;
        write!(f, "{byte:02x}")
    }
}
