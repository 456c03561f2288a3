//! Words in the places where they are names, begin something, are values, or cannot stand.

use crate::parsing::answer;
use crate::report::note;
use std::alloc::{AllocError, Global};
use std::test::Fail;

const FOREIGN: &[&str] = &[
    "switch",
    "do",
    "break",
    "continue",
    "try",
    "throw",
    "new",
    "delete",
    "typeof",
    "instanceof",
    "in",
    "void",
    "with",
    "class",
    "this",
    "function",
];

const BEGINNINGS: &[&str] = &[
    "var", "let", "const", "if", "else", "while", "for", "return",
];

const LITERALS: &[&str] = &["true", "false", "null", "undefined"];

/// Notes the texts of rows of two parts that have other answers with the word between them.
fn note_word(
    alloc: Global,
    report: &mut String,
    word: &str,
    rows: &[([&str; 2], &str)],
) -> Result<(), AllocError> {
    for ([head, tail], wanted) in rows {
        let text = format!(in alloc; "{head}{word}{tail}")?;
        let found = answer(alloc, text.as_bytes())?;
        note(report, text.as_str(), found.as_str(), wanted)?;
    }
    Ok(())
}

/// What differs for words that are names in the rows of names, and have rows of their own.
fn differing(
    alloc: Global,
    words: &[&str],
    rows: &[([&str; 2], &str)],
) -> Result<String, AllocError> {
    let mut report = String::new(alloc);
    for word in words {
        note_word(alloc, &mut report, word, rows)?;
        note_word(alloc, &mut report, word, NAME_ROWS)?;
    }
    Ok(report)
}

const FOREIGN_ROWS: &[([&str; 2], &str)] = &[
    (["Item { x: ", " }"], "Unsupported 1:11"),
    (["Item { property var a: ", " }"], "Unsupported 1:24"),
    (["Item { g { x: ", " } }"], "Unsupported 1:15"),
    (["Item { x: 1 + ", " }"], "Unsupported 1:15"),
    (["Item { x: -", " }"], "Unsupported 1:12"),
    (["Item { x: (", ") }"], "Unsupported 1:12"),
    (["Item { x: f(", ") }"], "Unsupported 1:13"),
    (["Item { x: f(a, ", ") }"], "Unsupported 1:16"),
    (["Item { x: a ? ", " : b }"], "Unsupported 1:15"),
    (["Item { x: a ? b : ", " }"], "Unsupported 1:19"),
    (["Item { onFoo: ", " }"], "Unsupported 1:15"),
    (["Item { onFoo: { ", " } }"], "Unsupported 1:17"),
    (["Item { onFoo: { a; ", " } }"], "Unsupported 1:20"),
    (["Item { onFoo: if (a) ", " }"], "Unsupported 1:22"),
    (["Item { onFoo: if (a) b; else ", " }"], "Unsupported 1:30"),
    (["Item { onFoo: if (", ") a }"], "Unsupported 1:19"),
    (["Item { onFoo: while (", ") a }"], "Unsupported 1:22"),
    (["Item { onFoo: for (;", ";) a }"], "Unsupported 1:21"),
    (["Item { onFoo: return ", " }"], "Unsupported 1:22"),
    (["Item { onFoo: a = ", " }"], "Unsupported 1:19"),
    (["Item { onFoo: var a = ", " }"], "Unsupported 1:23"),
    (["Item { x: a ", " b }"], "Syntax 1:13"),
    (["Item { onFoo: a ", " b }"], "Syntax 1:17"),
    (["Item { onFoo: for (", ";;) a }"], "Unsupported 1:20"),
    (["Item { onFoo: for (;;", ") a }"], "Unsupported 1:22"),
    (["", " { }"], "Syntax 1:1"),
];

// Where neither an expression nor a statement begins, a word is a name.
const NAME_ROWS: &[([&str; 2], &str)] = &[
    (["Item { x: a.", " }"], "ok"),
    (["Item { a.", ": 1 }"], "ok"),
    (["Item { g { ", ": 1 } }"], "ok"),
    (["Item { id: ", " }"], "ok"),
    (["Item { property int ", "; x: 1 }"], "ok"),
    (["Item { property ", " a }"], "ok"),
    (["Item { signal ", "; x: 1 }"], "ok"),
    (["Item { signal s(int ", ") }"], "ok"),
    (["Item { signal s(", " a) }"], "ok"),
    (["Item { function ", "(a) { } }"], "ok"),
    (["Item { function f(", ") { } }"], "ok"),
    (["Item { function f(a, ", ") { } }"], "ok"),
    (["Item { onFoo: a.", " = 1 }"], "ok"),
    (["Item { onFoo: var ", " }"], "ok"),
    (["Item { onFoo: { let ", " = 1; const b } }"], "ok"),
    (["Item { onFoo: for (var ", " = 1;;) a }"], "ok"),
];

#[test]
fn words_that_only_qml_has(rt: HostRuntime) -> Result<(), Fail> {
    assert_eq!(rt; differing(rt.alloc(), FOREIGN, FOREIGN_ROWS)?.as_str(), "");
    Ok(())
}

const BEGINNING_ROWS: &[([&str; 2], &str)] = &[
    (["Item { x: ", " }"], "Syntax 1:11"),
    (["Item { x: 1 + ", " }"], "Syntax 1:15"),
    (["Item { x: f(", ") }"], "Syntax 1:13"),
    (["Item { x: a ", " b }"], "Syntax 1:13"),
    (["Item { onFoo: a ", " b }"], "Syntax 1:17"),
    (["Item { onFoo: if (", ") a }"], "Syntax 1:19"),
    (["Item { onFoo: return ", " }"], "Syntax 1:22"),
    (["", " { }"], "Syntax 1:1"),
];

#[test]
fn words_that_begin_a_statement(rt: HostRuntime) -> Result<(), Fail> {
    assert_eq!(rt;
        differing(rt.alloc(), BEGINNINGS, BEGINNING_ROWS)?.as_str(),
        ""
    );
    Ok(())
}

const LITERAL_ROWS: &[([&str; 2], &str)] = &[
    (["Item { x: ", " }"], "ok"),
    (["Item { x: -f(", ") }"], "ok"),
    (["Item { onFoo: ", ".a() }"], "ok"),
    (["Item { x: a ", " b }"], "Syntax 1:13"),
    (["Item { onFoo: for (", " = 1;;) a }"], "Syntax 1:20"),
    (["Item { onFoo: for (;;", ".a++) b }"], "Syntax 1:22"),
    (["", " { }"], "Syntax 1:1"),
];

#[test]
fn words_that_are_literals(rt: HostRuntime) -> Result<(), Fail> {
    assert_eq!(rt; differing(rt.alloc(), LITERALS, LITERAL_ROWS)?.as_str(), "");
    Ok(())
}
