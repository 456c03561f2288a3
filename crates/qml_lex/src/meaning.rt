ghost use Rattle.std.specs.Prelude.{◌≡◌, Some, IfOk, pos, option_map};
ghost use Rattle.qml_lex.specs.Numbers.{integer_of};
ghost use Rattle.qml_lex.specs.Texts.{value_of};
ghost use Rattle.qml_lex.specs.Meaning.{IsSpelled, whole_of, fraction_of, body_of};
ghost use Rattle.qml_lex.specs.declared.token.TokenKind.TheVariants as kinds;

use crate::bytes::digit_len;
use crate::number::{capped_value, integer};
use crate::text::value_bytes;
use qml_ast::text::Text;
use std::alloc::{AllocError, Global};
use std::str;

/// What a decimal says: the values of the digits before its point and of those after it. Each is
/// 2147483647 where the digits' value is more.
#[derive(Clone, Copy)]
pub struct DecimalValue {
    pub whole: u32,
    pub fraction: u32,
}

/// A name's text as a string.
pub fn name_text(text: &[u8]) -> &str
    requires { IsSpelled kinds.Name text.now }
    ensures { result.now ≡ text.now }
{
    match str::from_utf8(text) {
        Ok(name) => name,
        Err(_) => unreachable!(),
    }
}

/// The value of an integer's text.
pub fn integer_value(text: &[u8]) -> i32
    requires { IsSpelled kinds.Integer text.now }
    ensures { Some result ≡ option_map pos (integer_of text.now) }
{
    match integer(text) {
        Some(value) => value as i32,
        None => unreachable!(),
    }
}

/// The value of a decimal's text.
pub fn decimal_value(text: &[u8]) -> DecimalValue
    requires { IsSpelled kinds.Decimal text.now }
    ensures whole { result.whole ≡ whole_of text.now }
    ensures fraction { result.fraction ≡ fraction_of text.now }
{
    let len = digit_len(text);
    DecimalValue {
        whole: capped_value(10, &text[..len]).min(2147483647) as u32,
        fraction: capped_value(10, &text[len + 1..]).min(2147483647) as u32,
    }
}

/// The value of a text's text: what stands between its quotes, with each escape as what it stands for.
pub fn text_value(alloc: Global, text: &[u8]) -> Result<Text, AllocError>
    requires { IsSpelled kinds.Text text.now }
    ensures { IfOk result (λ value. value ≡ value_of (body_of text.now)) }
{
    let bytes = value_bytes(alloc, &text[1..text.len() - 1])?;
    match String::from_utf8(bytes) {
        Ok(value) => Ok(Text::from_string(value)),
        Err(_) => unreachable!(),
    }
}
