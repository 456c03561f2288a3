ghost use Rattle.std.specs.Prelude.{◌≡◌, ◌<◌, ◌++◌, false, IfOk};
ghost use Rattle.qml_grammar.specs.CanonicalExpressions.{escaped, literal_text, quoted};
ghost use Rattle.std.specs.Fmt.{digit_glyph};

use crate::sheet::Sheet;
use qml_ast::Value;
use std::alloc::AllocError;

/// Writes a literal: a text in double quotes with escapes, and another value as its text.
pub(crate) fn write_literal(value: &Value, out: &mut Sheet) -> Result<(), AllocError>
    ensures { IfOk result (λ _. out.new ≡ out.old ++ literal_text value.now) }
{
    match value {
        Value::Str(text) => write_quoted(text.as_bytes(), out),
        _ => out.put_value(value),
    }
}

/// Writes a text in double quotes.
fn write_quoted(text: &[u8], out: &mut Sheet) -> Result<(), AllocError>
    ensures { IfOk result (λ _. out.new ≡ out.old ++ quoted text.now) }
{
    out.put(b"\"")?;
    for byte in text {
        write_escaped(*byte, out)?;
    }
    out.put(b"\"")
}

/// Writes a byte of a text between quotes.
fn write_escaped(byte: u8, out: &mut Sheet) -> Result<(), AllocError>
    ensures { IfOk result (λ _. out.new ≡ out.old ++ escaped byte) }
{
    match byte {
        b'"' => out.put(b"\\\""),
        b'\\' => out.put(b"\\\\"),
        b'\n' => out.put(b"\\n"),
        b'\t' => out.put(b"\\t"),
        b'\r' => out.put(b"\\r"),
        0..=31 => {
            out.put(b"\\u00")?;
            out.put(&[hex_digit(byte / 16), hex_digit(byte % 16)])
        }
        _ => out.put(&[byte]),
    }
}

/// The hexadecimal digit of this value, in lower case.
fn hex_digit(value: u8) -> u8
    requires { value < 16 }
    ensures { result ≡ digit_glyph false value }
{
    if value < 10 {
        b'0' + value
    } else {
        b'a' + (value - 10)
    }
}
