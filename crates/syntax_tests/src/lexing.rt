//! Tokens of texts, their places and values, and texts that have none.

ghost use Rattle.std.specs.Prelude.{◌≤◌, length};
ghost use Rattle.qml_lex.specs.Meaning.{IsSpelled};

use crate::report::{note, told_fault};
use qml_ast::{DocFault, Span};
use qml_lex::{
    DecimalValue, Scanner, Token, TokenKind, Tokens, decimal_value, end_place, integer_value, lex,
    name_text, text_value,
};
use std::alloc::{AllocError, Global};
use std::str;
use std::test::Fail;

fn is_shared<T: Send + Sync>(_value: &T) {}

fn kind_text(kind: TokenKind) -> &'static str {
    match kind {
        TokenKind::Name => "name ",
        TokenKind::Integer => "integer ",
        TokenKind::Decimal => "decimal ",
        TokenKind::Text => "text ",
        TokenKind::Mark => "mark ",
    }
}

/// Adds a token's kind and text.
fn push_token(told: &mut String, bytes: &[u8], token: Token) -> Result<(), AllocError> {
    told.push_str(kind_text(token.kind))?;
    if token.start <= token.end && token.end <= bytes.len() {
        if let Ok(text) = str::from_utf8(&bytes[token.start..token.end]) {
            told.push_str(text)?;
        }
    }
    told.push_str("\n")
}

fn told_tokens(alloc: Global, bytes: &[u8], tokens: &Tokens) -> Result<String, AllocError> {
    is_shared(tokens);
    let mut told = String::new(alloc);
    if tokens.is_empty() {
        return Ok(told);
    }
    for i in 0..tokens.len() {
        push_token(&mut told, bytes, tokens.at(i))?;
    }
    Ok(told)
}

/// The kinds and texts of a text's tokens, or its fault.
fn answer(alloc: Global, bytes: &[u8]) -> Result<String, AllocError> {
    if bytes.len() > 1000 {
        return String::from_str(alloc, "too long");
    }
    match lex(alloc, bytes) {
        Ok(tokens) => told_tokens(alloc, bytes, &tokens),
        Err(fault) => told_fault(alloc, fault),
    }
}

fn differing(alloc: Global, rows: &[(&str, &str)]) -> Result<String, AllocError> {
    let mut report = String::new(alloc);
    for (text, wanted) in rows {
        note(
            &mut report,
            text,
            answer(alloc, text.as_bytes())?.as_str(),
            wanted,
        )?;
    }
    Ok(report)
}

const EACH_KIND: &[(&str, &str)] = &[
    ("", ""),
    (" \t\r\n", ""),
    ("\u{feff}", ""),
    ("\u{feff}a", "name a\n"),
    ("// é /* \" \r x", ""),
    ("/* // \n * / ** é*/", ""),
    ("/**/a/***/", "name a\n"),
    ("_aZ09_ b", "name _aZ09_\nname b\n"),
    (
        "0 7 120 2147483647",
        "integer 0\ninteger 7\ninteger 120\ninteger 2147483647\n",
    ),
    (
        "0x0 0x00000000000aF 0x7fffffff",
        "integer 0x0\ninteger 0x00000000000aF\ninteger 0x7fffffff\n",
    ),
    (
        "2.15 00.5 99999999999.50",
        "decimal 2.15\ndecimal 00.5\ndecimal 99999999999.50\n",
    ),
    (
        "1. .5 1.x",
        "integer 1\nmark .\nmark .\ninteger 5\ninteger 1\nmark .\nname x\n",
    ),
    ("1.5.25", "decimal 1.5\nmark .\ninteger 25\n"),
    (
        "objectName: \"a\rb\"",
        "name objectName\nmark :\ntext \"a\rb\"\n",
    ),
    (
        "'\\n\\t\\r\\\\\\\"\\'\\u00e9\"\t\0é' \"'\"\"\"",
        "text '\\n\\t\\r\\\\\\\"\\'\\u00e9\"\t\0é'\ntext \"'\"\ntext \"\"\n",
    ),
    (
        "=== !== !=== +=+ --- ====",
        "mark ===\nmark !==\nmark !==\nmark =\nmark +=\nmark +\nmark --\nmark -\nmark ===\nmark =\n",
    ),
];

#[test]
fn tokens_of_each_kind(rt: HostRuntime) -> Result<(), Fail> {
    assert_eq!(rt; differing(rt.alloc(), EACH_KIND)?.as_str(), "");
    Ok(())
}

const MARKS: &[&str] = &[
    "{", "}", "(", ")", "[", "]", ";", ":", ",", ".", "?", "+", "-", "*", "/", "%", "!", "<", ">",
    "<=", ">=", "==", "!=", "===", "!==", "&&", "||", "=", "+=", "-=", "*=", "/=", "++", "--",
];

fn differing_marks(alloc: Global) -> Result<String, AllocError> {
    let mut report = String::new(alloc);
    for mark in MARKS {
        let wanted = format!(in alloc; "mark {mark}\n")?;
        let found = answer(alloc, mark.as_bytes())?;
        note(&mut report, mark, found.as_str(), wanted.as_str())?;
    }
    Ok(report)
}

#[test]
fn each_mark(rt: HostRuntime) -> Result<(), Fail> {
    assert_eq!(rt; differing_marks(rt.alloc())?.as_str(), "");
    Ok(())
}

const NO_TOKENS: &[(&str, &str)] = &[
    ("Item\r\n{\r\r@", "BadToken 2:4"),
    ("/*/", "BadToken 1:1"),
    ("a /* * /", "BadToken 1:3"),
    ("Item { x: 0.5px }", "BadToken 1:11"),
    ("0.5_", "BadToken 1:1"),
    ("Item { x: 1é }", "BadToken 1:12"),
    ("0x", "BadToken 1:1"),
    ("0X1", "BadToken 1:1"),
    ("0x1g", "BadToken 1:1"),
    ("0x80000000", "BadToken 1:1"),
    ("2147483648", "BadToken 1:1"),
    ("Item { x: 01 }", "BadToken 1:11"),
    ("00", "BadToken 1:1"),
    ("1a", "BadToken 1:1"),
    ("1_", "BadToken 1:1"),
    ("\u{feff}@", "BadToken 1:4"),
    ("a\u{feff}", "BadToken 1:2"),
    ("\u{feff}\u{feff}", "BadToken 1:4"),
    ("Item { ) @ }", "BadToken 1:10"),
    ("a \"b", "BadToken 1:3"),
    ("\"a\n\"", "BadToken 1:1"),
    ("\"\\\n\"", "BadToken 1:1"),
    ("\"\\q\"", "BadToken 1:1"),
    ("\"\\", "BadToken 1:1"),
    ("\"\\u123\"", "BadToken 1:1"),
    ("\"\\u00g0\"", "BadToken 1:1"),
    ("\"\\ud800\"", "BadToken 1:1"),
    ("\"\\udfff\"", "BadToken 1:1"),
    ("'\"", "BadToken 1:1"),
    ("a & b", "BadToken 1:3"),
    ("|", "BadToken 1:1"),
    ("#", "BadToken 1:1"),
    ("\0", "BadToken 1:1"),
    ("\"é\" @", "BadToken 1:6"),
    ("// é\n @", "BadToken 2:2"),
    ("/* é */@", "BadToken 1:9"),
];

#[test]
fn bad_tokens(rt: HostRuntime) -> Result<(), Fail> {
    assert_eq!(rt; differing(rt.alloc(), NO_TOKENS)?.as_str(), "");
    Ok(())
}

const NO_TEXTS: &[(&[u8], &str)] = &[
    (b"\x80", "NotUtf8 0"),
    (b"ab\xC3", "NotUtf8 2"),
    (b"\xE2\x82", "NotUtf8 0"),
    (b"@\xF0\x9F\x98", "NotUtf8 1"),
    (b"@ \xFF", "NotUtf8 2"),
    (b"\xC0\xAF", "NotUtf8 0"),
    (b"\"\xED\xA0\x80\"", "NotUtf8 1"),
    (b"\xC3\xA9\xF4\x90\x80\x80", "NotUtf8 2"),
];

fn differing_bytes(alloc: Global) -> Result<String, AllocError> {
    let mut report = String::new(alloc);
    for (bytes, wanted) in NO_TEXTS {
        note(&mut report, wanted, answer(alloc, bytes)?.as_str(), wanted)?;
    }
    Ok(report)
}

#[test]
fn bytes_that_are_no_text(rt: HostRuntime) -> Result<(), Fail> {
    assert_eq!(rt; differing_bytes(rt.alloc())?.as_str(), "");
    Ok(())
}

/// The places of a text's tokens.
fn told_places(alloc: Global, bytes: &[u8]) -> Result<String, Fail> {
    if bytes.len() > 1000 {
        return Err(Fail::from("a long text"));
    }
    let mut told = String::new(alloc);
    for token in lex(alloc, bytes)?.as_slice() {
        told.push_str(token.span.to_string(alloc)?.as_str())?;
        told.push_str(" ")?;
    }
    Ok(told)
}

#[test]
fn places_of_tokens(rt: HostRuntime) -> Result<(), Fail> {
    let text = "a\r\n  bc \"é\" /* é\n*/ d // e\n\u{9}f";
    let told = told_places(rt.alloc(), text.as_bytes())?;
    assert_eq!(rt; told.as_str(), "1:1 2:3 2:6 3:4 4:2 ");
    Ok(())
}

/// Adds what a scanner gave, with offsets and the place.
fn push_scanned(alloc: Global, told: &mut String, token: Option<Token>) -> Result<(), AllocError> {
    let Some(
        Token {
            kind,
            start,
            end,
            span,
        },
    ) = token
    else {
        return told.push_str("nothing, ");
    };
    told.push_str(kind_text(kind))?;
    told.push_str(format!(in alloc; "{start}..{end} at {span}, ")?.as_str())
}

/// The first three things that a scanner gives, and where the text ends.
fn told_scan(alloc: Global, bytes: &[u8]) -> Result<String, Fail> {
    if bytes.len() > 1000 {
        return Err(Fail::from("a long text"));
    }
    let mut scanner = Scanner::new(bytes)?;
    let first = scanner.next_token()?;
    let second = scanner.next_token()?;
    let third = scanner.next_token()?;
    let mut told = String::new(alloc);
    push_scanned(alloc, &mut told, first)?;
    push_scanned(alloc, &mut told, second)?;
    push_scanned(alloc, &mut told, third)?;
    told.push_str(end_place(bytes).to_string(alloc)?.as_str())?;
    Ok(told)
}

#[test]
fn a_scanner_gives_one_token_after_the_other(rt: HostRuntime) -> Result<(), Fail> {
    let told = told_scan(rt.alloc(), "\u{feff}id /* é */\n'a' ".as_bytes())?;
    assert_eq!(rt;
        told.as_str(),
        "name 3..5 at 1:4, text 15..18 at 2:1, nothing, 2:5"
    );
    Ok(())
}

/// How many tokens a text of `count` times `unit` between two `edge`s has, or its fault.
fn counted(alloc: Global, edge: &[u8], unit: &[u8], count: usize) -> Result<String, AllocError>
    requires edge { length edge.now ≤ 2 }
    requires unit { length unit.now ≤ 6 }
    requires count { count ≤ 100000 }
{
    let mut bytes = Vec::from_slice(alloc, edge)?;
    for _ in 0..count {
        bytes.extend_from_slice(unit)?;
    }
    bytes.extend_from_slice(edge)?;
    if bytes.len() > 1000000 {
        return String::from_str(alloc, "too long");
    }
    match lex(alloc, bytes.as_slice()) {
        Ok(tokens) => tokens.len().to_string(alloc),
        Err(fault) => told_fault(alloc, fault),
    }
}

const LONGEST: &[(&[u8], &[u8], usize, &str)] = &[
    (b"", b"a", 65536, "1"),
    (b"", b"a", 65537, "BadToken 1:1"),
    (b"\"", b"a", 65536, "1"),
    (b"\"", b"a", 65537, "BadToken 1:1"),
    (b"'", b"\\n", 65536, "1"),
    (b"'", b"\\n", 65537, "BadToken 1:1"),
    (b"\"", b"\\u00e9", 32768, "1"),
    (b"\"", b"\\u00e9", 32769, "BadToken 1:1"),
];

fn differing_lengths(alloc: Global) -> Result<String, AllocError> {
    let mut report = String::new(alloc);
    for (edge, unit, count, wanted) in LONGEST {
        if edge.len() <= 2 && unit.len() <= 6 && *count <= 100000 {
            let found = counted(alloc, edge, unit, *count)?;
            note(&mut report, "a long token", found.as_str(), wanted)?;
        } else {
            report.push_str("a row is too long")?;
        }
    }
    Ok(report)
}

#[test]
fn longest_names_and_texts(rt: HostRuntime) -> Result<(), Fail> {
    assert_eq!(rt; differing_lengths(rt.alloc())?.as_str(), "");
    Ok(())
}

/// What a token's text means.
fn told_value(alloc: Global, kind: TokenKind, text: &[u8]) -> Result<String, AllocError>
    requires { IsSpelled kind text.now }
{
    match kind {
        TokenKind::Name => String::from_str(alloc, name_text(text)),
        TokenKind::Integer => {
            let value = integer_value(text);
            format!(in alloc; " {value}")
        }
        TokenKind::Decimal => {
            let DecimalValue { whole, fraction } = decimal_value(text);
            format!(in alloc; " {whole}|{fraction}")
        }
        TokenKind::Text => String::from_str(alloc, text_value(alloc, text)?.as_str()),
        TokenKind::Mark => String::from_str(alloc, "?"),
    }
}

/// What the tokens of a text mean.
fn told_values(alloc: Global, bytes: &[u8]) -> Result<String, Fail> {
    if bytes.len() > 1000 {
        return Err(Fail::from("a long text"));
    }
    let tokens = lex(alloc, bytes)?;
    let mut told = String::new(alloc);
    for i in 0..tokens.len() {
        let token = tokens.at(i);
        if token.start <= token.end && token.end <= bytes.len() {
            let text = &bytes[token.start..token.end];
            told.push_str(told_value(alloc, token.kind, text)?.as_str())?;
        }
    }
    Ok(told)
}

#[test]
fn values(rt: HostRuntime) -> Result<(), Fail> {
    let text = "x 2147483647 0x1F 2.05 0.99999999999 \"a\\u00e9\\n'é\"";
    let told = told_values(rt.alloc(), text.as_bytes())?;
    assert_eq!(rt; told.as_str(), "x 2147483647 31 2|5 0|2147483647aé\n'é");
    Ok(())
}
