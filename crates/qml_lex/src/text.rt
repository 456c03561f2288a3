ghost use Rattle.std.specs.Prelude.{◌≡◌, ◌+◌, ◌<◌, ◌≤◌, ◌++◌, length, IsSome, IfSome, IfOk, OnOk, OnErr};
ghost use Rattle.qml_lex.specs.Texts.{short_escape, code_of, escape_of, part_of, spelled_len, part_value, body_len, value_of};

use crate::number::number;
use std::alloc::{AllocError, Global};

/// What stands inside a text.
#[derive(Clone, Copy)]
pub enum Part {
    /// A byte that stands for itself.
    Raw(u8),
    /// A backslash and a byte, which stand for this byte.
    Short(u8),
    /// A backslash, `u` and four hexadecimal digits.
    Code(char),
}

impl Part {
    /// How many bytes it is spelled with.
    fn spelled_len(self) -> usize
        ensures value { result ≡ spelled_len self }
        ensures some { 0 < result }
    {
        match self {
            Part::Raw(_) => 1,
            Part::Short(_) => 2,
            Part::Code(_) => 6,
        }
    }

    /// How many bytes its value has.
    fn value_len(self) -> usize
        ensures value { result ≡ length (part_value self) }
        ensures shorter { result ≤ spelled_len self }
    {
        match self {
            Part::Raw(_) | Part::Short(_) => 1,
            Part::Code(character) => character.len_utf8(),
        }
    }

    /// Appends its value. After an error the bytes are as before.
    fn append_to(self, bytes: &mut Vec<u8>) -> Result<(), AllocError>
        ensures ok { OnOk result (bytes.new.items ≡ bytes.old.items ++ part_value self) }
        ensures err { OnErr result (bytes.new.items ≡ bytes.old.items) }
    {
        match self {
            Part::Raw(byte) | Part::Short(byte) => bytes.push(byte)?,
            Part::Code(character) => {
                let mut buffer = [0; 4];
                bytes.extend_from_slice(character.encode_utf8(&mut buffer).as_bytes())?;
            }
        }
        Ok(())
    }
}

// The byte that a backslash and this byte stand for.
fn short_escape(byte: u8) -> Option<u8>
    ensures { result ≡ short_escape byte }
{
    match byte {
        b'n' => Some(b'\n'),
        b't' => Some(b'\t'),
        b'r' => Some(b'\r'),
        b'\\' | b'"' | b'\'' => Some(byte),
        _ => None,
    }
}

// The character of four hexadecimal digits.
#[tactic(auto, unfolding(crate::specs::Texts::code_of))]
fn code(digits: &[u8]) -> Option<char>
    ensures value { result ≡ code_of digits.now }
    ensures four { IsSome result → length digits.now ≡ 4 }
{
    if digits.len() != 4 {
        return None;
    }
    char::from_u32(number(16, digits)?)
}

// What a backslash and these bytes begin with.
#[tactic(auto, unfolding(crate::specs::Texts::escape_of))]
fn escape(text: &[u8]) -> Option<Part>
    ensures value { result ≡ escape_of text.now }
    ensures within { IfSome result (λ part. spelled_len part ≤ length text.now + 1) }
{
    match text {
        [b'u', rest @ ..] => Some(Part::Code(code(&rest[..rest.len().min(4)])?)),
        [byte, ..] => Some(Part::Short(short_escape(*byte)?)),
        [] => None,
    }
}

// What these bytes of a text begin with.
#[inline(always)]
#[tactic(auto, unfolding(crate::specs::Texts::part_of))]
fn first_part(text: &[u8]) -> Option<Part>
    ensures value { result ≡ part_of text.now }
    ensures within { IfSome result (λ part. spelled_len part ≤ length text.now) }
{
    match text {
        [] | [b'\n', ..] => None,
        [b'\\', rest @ ..] => escape(rest),
        [byte, ..] => Some(Part::Raw(*byte)),
    }
}

/// How many bytes stand before the closing quote; none where the text has no end or something inside
/// it is neither an escape nor a byte that may stand for itself.
#[inline(never)]
#[tactic(auto, using(crate::proofs::Inside::inside))]
pub fn body_len(quote: u8, text: &[u8]) -> Option<usize>
    ensures value { result ≡ body_len quote text.now }
    ensures within { IfSome result (λ n. n < length text.now) }
{
    let mut at = 0;
    while at < text.len() {
        if text[at] == quote {
            return Some(at);
        }
        let Some(part) = first_part(&text[at..]) else {
            return None;
        };
        at += part.spelled_len();
    }
    None
}

/// How many bytes the value has of what stands between the quotes of a text.
#[inline(never)]
#[tactic(auto, using(crate::proofs::Inside::inside))]
pub fn value_len(body: &[u8]) -> usize
    ensures { result ≡ length (value_of body.now) }
{
    let mut at = 0;
    let mut len = 0;
    while at < body.len() {
        match first_part(&body[at..]) {
            Some(part) => {
                at += part.spelled_len();
                len += part.value_len();
            }
            None => at += 1,
        }
    }
    len
}

/// The value of what stands between the quotes of a text.
#[inline(never)]
pub fn value_bytes(alloc: Global, body: &[u8]) -> Result<Vec<u8>, AllocError>
    ensures { IfOk result (λ value. value.items ≡ value_of body.now) }
{
    let mut value = Vec::with_capacity(alloc, body.len())?;
    let mut at = 0;
    while at < body.len() {
        match first_part(&body[at..]) {
            Some(part) => {
                part.append_to(&mut value)?;
                at += part.spelled_len();
            }
            None => at += 1,
        }
    }
    Ok(value)
}
