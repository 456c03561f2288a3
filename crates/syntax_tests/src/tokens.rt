//! Tokens with what they say.

use crate::report::{note, told_fault};
use qml_ast::{DocFault, Span};
use qml_expr::{Lexeme, Token};
use qml_grammar::{Mark, Word};
use qml_lex::end_place;
use qml_tokens::tokens_of_text;
use std::alloc::{AllocError, Global};
use std::test::Fail;

/// The tokens of a short text, each in the column of its number from 1 on, and the place behind them.
pub(crate) fn numbered(alloc: Global, text: &str) -> Result<(Vec<Token>, Span), DocFault> {
    let bytes = text.as_bytes();
    if bytes.len() > 1_000_000 {
        return Err(DocFault::NoMemory);
    }
    let mut end = end_place(bytes);
    end.col = 1;
    let mut tokens = tokens_of_text(alloc, bytes)?;
    for token in tokens.iter_mut() {
        token.span.col = end.col;
        end.col = end.col.saturating_add(1);
    }
    Ok((tokens, end))
}

/// What a token says.
fn told_lexeme(alloc: Global, lexeme: &Lexeme) -> Result<String, AllocError> {
    match lexeme {
        Lexeme::Plain(name) => format!(in alloc; "name {name}"),
        Lexeme::Word(word) => {
            let word = word.as_str();
            format!(in alloc; "word {word}")
        }
        Lexeme::Integer(value) => {
            let value = value.to_i32();
            format!(in alloc; "integer {value}")
        }
        Lexeme::Decimal(whole, part) => format!(in alloc; "decimal {whole} {part}"),
        Lexeme::Text(text) => format!(in alloc; "text {text}"),
        Lexeme::Mark(mark) => {
            let mark = mark.as_str();
            format!(in alloc; "mark {mark}")
        }
    }
}

/// Adds what a token says, with its place.
fn push_told(alloc: Global, told: &mut String, token: &Token) -> Result<(), AllocError> {
    told.push_str(told_lexeme(alloc, &token.lexeme)?.as_str())?;
    told.push_str(" ")?;
    told.push_str(token.span.to_string(alloc)?.as_str())?;
    told.push_str(", ")
}

fn told_tokens(alloc: Global, tokens: &[Token]) -> Result<String, AllocError> {
    let mut told = String::new(alloc);
    for token in tokens {
        push_told(alloc, &mut told, token)?;
    }
    Ok(told)
}

/// The tokens of a text, or its fault.
fn answer(alloc: Global, bytes: &[u8]) -> Result<String, AllocError> {
    if bytes.len() > 1000 {
        return String::from_str(alloc, "too long");
    }
    match tokens_of_text(alloc, bytes) {
        Ok(tokens) => told_tokens(alloc, tokens.as_slice()),
        Err(fault) => told_fault(alloc, fault),
    }
}

const EACH_KIND: &[(&[u8], &str)] = &[
    (b"", ""),
    (b"if iff\n If", "word if 1:1, name iff 1:4, name If 2:2, "),
    (
        b"0 0x1F 2147483647",
        "integer 0 1:1, integer 31 1:3, integer 2147483647 1:8, ",
    ),
    (
        b"2.05 0.99999999999",
        "decimal 2 5 1:1, decimal 0 2147483647 1:6, ",
    ),
    (b"'a\\u00e9' \"\"", "text a\u{e9} 1:1, text  1:11, "),
    (b"a // b\n{", "name a 1:1, mark { 2:1, "),
    (b"a @ \xff", "NotUtf8 4"),
    (b"a @", "BadToken 1:3"),
];

fn differing(alloc: Global) -> Result<String, AllocError> {
    let mut report = String::new(alloc);
    for (bytes, wanted) in EACH_KIND {
        note(&mut report, wanted, answer(alloc, bytes)?.as_str(), wanted)?;
    }
    Ok(report)
}

#[test]
fn tokens_of_each_kind(rt: HostRuntime) -> Result<(), Fail> {
    assert_eq!(rt; differing(rt.alloc())?.as_str(), "");
    Ok(())
}

fn differing_words(alloc: Global) -> Result<String, AllocError> {
    let mut report = String::new(alloc);
    for word in Word::ALL {
        let text = word.as_str();
        let wanted = format!(in alloc; "word {text} 1:1, ")?;
        let found = answer(alloc, text.as_bytes())?;
        note(&mut report, text, found.as_str(), wanted.as_str())?;
    }
    Ok(report)
}

#[test]
fn each_word(rt: HostRuntime) -> Result<(), Fail> {
    assert_eq!(rt; differing_words(rt.alloc())?.as_str(), "");
    Ok(())
}

const MARKS: &[Mark] = &[
    Mark::OpenBrace,
    Mark::CloseBrace,
    Mark::OpenParen,
    Mark::CloseParen,
    Mark::OpenBracket,
    Mark::CloseBracket,
    Mark::Semicolon,
    Mark::Colon,
    Mark::Comma,
    Mark::Dot,
    Mark::Question,
    Mark::Plus,
    Mark::Minus,
    Mark::Star,
    Mark::Slash,
    Mark::Percent,
    Mark::Bang,
    Mark::Less,
    Mark::Greater,
    Mark::LessEqual,
    Mark::GreaterEqual,
    Mark::EqualEqual,
    Mark::BangEqual,
    Mark::TripleEqual,
    Mark::BangDoubleEqual,
    Mark::DoubleAmpersand,
    Mark::DoubleBar,
    Mark::Equal,
    Mark::PlusEqual,
    Mark::MinusEqual,
    Mark::StarEqual,
    Mark::SlashEqual,
    Mark::DoublePlus,
    Mark::DoubleMinus,
];

fn differing_marks(alloc: Global) -> Result<String, AllocError> {
    let mut report = String::new(alloc);
    for mark in MARKS {
        let text = mark.as_str();
        let wanted = format!(in alloc; "mark {text} 1:1, ")?;
        let found = answer(alloc, text.as_bytes())?;
        note(&mut report, text, found.as_str(), wanted.as_str())?;
    }
    Ok(report)
}

#[test]
fn each_mark(rt: HostRuntime) -> Result<(), Fail> {
    assert_eq!(rt; differing_marks(rt.alloc())?.as_str(), "");
    Ok(())
}
