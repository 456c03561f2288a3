//! Texts that are documents, and the first faults of others.

use crate::report::{note, told_fault};
use qml_ast::{DocFault, Span};
use qml_parse::parse;
use std::alloc::{AllocError, Global};
use std::test::Fail;

/// `ok` where a text is a document, and else its fault.
pub(crate) fn answer(alloc: Global, bytes: &[u8]) -> Result<String, AllocError> {
    if bytes.len() > 1_000_000 {
        return String::from_str(alloc, "too long");
    }
    match parse(alloc, bytes) {
        Ok(_document) => String::from_str(alloc, "ok"),
        Err(fault) => told_fault(alloc, fault),
    }
}

const LAWFUL: &[&str] = &[
    // Tokens
    "Item { }",
    "Item { objectName: \"a\rb\" }",
    "Item { x: '\0a\tb\u{7f}' + \"\\u0000\\n\\t\\r\\\\\\\"\\'\" }",
    "Item { x: 0x000F + 0x7fffffff + 2147483647 + 0 }",
    "Item { x: 1.x; y: 1 .x }",
    "/*/ * */Item { /**/ x: 1 // é \r @\n} // }",
    "\r\n\tItem\r{\r}\r",
    // Imports
    "\u{feff}import QtQuick 2.0; import QtQuick 2.15\n// all\nItem { }",
    "import\nQtQuick\n02.05\nimport QtQuick 2.015;Item { }",
    // Ends
    "Item { x: 1\ny: 2 }",
    "Item { x: 1 /*\n*/ y: 2 }",
    "Item { x: 1; y: 2; }",
    "Item { onXChanged: a;; }",
    "Item { onXChanged: ;; }",
    "Item { onXChanged: { }; }",
    "Item { onXChanged: if (a) { }; }",
    "Item { onXChanged: if (a) b;; x: 1 }",
    "Item { onXChanged: return;; }",
    "Item { onXChanged: a; x: 1 }",
    "Item { onXChanged: { } x: 1 }",
    "Item { onXChanged: if (a) { } x: 1 }",
    "Item { onXChanged: if (a) b; else c; x: 1 }",
    "Item { p: A { } x: 1; A { } x: 1 }",
    "Item { property A p: A { } x: 1; signal s; y: 2 }",
    "Item { g { x: 1; y: A { } z: 2; } x: 1 }",
    "Item { function f() { } x: 1 }",
    "Item { onFoo: { a; b;; { } c } }",
    // Lines inside a member
    "Item { p: A\n{ } }",
    "Item { signal s\n(int a) }",
    "Item { onFoo: { a\n= 1\nb\n(c) } }",
    "Item { onFoo: { A\n{ } A.B\n{ } a = B.C\n{ } } }",
    "Item\n{\nproperty\nint\na\n:\n1\nreadonly\nproperty\nint\nb }",
    // Groups
    "Item { anchors { fill: parent; foo: 1 } }",
    "Item { foo { } }",
    "Item { border { } onFoo { x: 1 } }",
    "Item { g { else: 1; default: 2; id: 3; function: 4; enum: 5; required: 6; property: 7; if: 8 } }",
    "Item { states.x: 1; states { x: 1 } property var states }",
    // Words that are names
    "Item { id: true }",
    "Item { if: 1 }",
    "Item { var: 1; let: 2; const: 3; if: 4; while: 5; for: 6; return: 7; true: 8; false: 9; null: 10; undefined: 11 }",
    "Item { switch: 1; do: 2; break: 3; continue: 4; try: 5; throw: 6; new: 7; delete: 8; typeof: 9; instanceof: 10 }",
    "Item { in: 1; void: 2; with: 3; class: 4; this: 5 }",
    "Item { if: 1; Foo: 2; import: 3; on: 4; alias: 5; as: 6; true: 7; this.x: 8; x.else: 9 }",
    "Item { property int while; property var function; property if a; signal var }",
    "Item { x: a.if.function.else.true }",
    "Item { x: alias + as + on + enum + required + default + import + id + property + signal + readonly }",
    "Item { onFoo: { var function; let if = 1; const true; var this } }",
    "Item { signal s(alias a) }",
    "Item { function if(else, this, function) { return a.function } }",
    // Paths
    "Item { Component.onFoo: a; onBar: b }",
    "Item { Component.completed: 1 }",
    "Item { x: A.b; y: A.B; A.b: 1; A.B: 2 }",
    "Item { onfoo: 1; on_A: 2; on: 3; onA_: { } }",
    // Statements
    "Item { onFoo: return }",
    "Item { onFoo: { return\na } }",
    "Item { onFoo: for (var i = 0; i < 3; i++) for (a.b = 1;; a--) while (b) if (c) ; else return d }",
    "Item { onFoo: for (a += 1;; a /= 2) ; }",
    "Item { onFoo: if (a) if (b) c; else d\nelse e }",
];

fn unlawful(alloc: Global) -> Result<String, AllocError> {
    let mut report = String::new(alloc);
    for text in LAWFUL {
        note(
            &mut report,
            text,
            answer(alloc, text.as_bytes())?.as_str(),
            "ok",
        )?;
    }
    Ok(report)
}

#[test]
fn lawful_documents(rt: HostRuntime) -> Result<(), Fail> {
    assert_eq!(rt; unlawful(rt.alloc())?.as_str(), "");
    Ok(())
}

// Faults

fn differing(alloc: Global, rows: &[(&str, &str)]) -> Result<String, AllocError> {
    let mut report = String::new(alloc);
    for (text, wanted) in rows {
        note(
            &mut report,
            text,
            answer(alloc, text.as_bytes())?.as_str(),
            wanted,
        )?;
    }
    Ok(report)
}

const OUT_OF_PLACE: &[(&str, &str)] = &[
    // Tokens
    ("\u{feff}", "Syntax 1:4"),
    ("Item { x: 1\ry: 2 }", "Syntax 1:13"),
    ("Item { // }\r }", "Syntax 1:15"),
    ("Item { x: 1. }", "Syntax 1:14"),
    ("Item { x: .5 }", "Syntax 1:11"),
    // Documents and imports
    ("", "Syntax 1:1"),
    ("Item\n", "Syntax 2:1"),
    ("Item {", "Syntax 1:7"),
    ("Item { Item { }", "Syntax 1:16"),
    ("Item { } Item { }", "Syntax 1:10"),
    ("Item { };", "Syntax 1:9"),
    ("Item { } }", "Syntax 1:10"),
    ("Item { }\nimport QtQuick 2.5", "Syntax 2:1"),
    ("item { }", "Syntax 1:1"),
    ("\u{feff}item { }", "Syntax 1:4"),
    ("_a { }", "Syntax 1:1"),
    ("A.b { }", "Syntax 1:2"),
    ("A.B", "Syntax 1:2"),
    ("A.B on x { }", "Syntax 1:2"),
    ("Foo on x { }", "Syntax 1:5"),
    ("import", "Syntax 1:7"),
    ("import ;", "Syntax 1:8"),
    ("import QtQuick", "Syntax 1:15"),
    ("import QtQuick.", "Syntax 1:16"),
    ("import QtQuick 2", "Syntax 1:16"),
    ("import QtQuick . 5", "Syntax 1:18"),
    ("import QtQuick as Q", "Syntax 1:16"),
    ("import QtQuick 2.5; as Q", "Syntax 1:21"),
    ("import QtQuick 2.5;\nas Q", "Syntax 2:1"),
    ("import QtQuick 2.5 Item { }", "Syntax 1:20"),
    ("import QtQuick 2.5 import QtQuick 2.5", "Syntax 1:20"),
    ("import QtQuick 2.5;; Item { }", "Syntax 1:20"),
    ("import QtQuick 2.5", "Syntax 1:19"),
    ("import QtQuick 2.5\n{ }", "Syntax 2:1"),
    // Ends
    ("Item { onXChanged: a;;; }", "Syntax 1:23"),
    ("Item { onXChanged: ;;; }", "Syntax 1:22"),
    ("Item { onXChanged: { };; }", "Syntax 1:24"),
    ("Item { onXChanged: if (a) b;;; }", "Syntax 1:30"),
    ("Item { onXChanged: return;;; }", "Syntax 1:28"),
    ("Item { x: 1;; }", "Syntax 1:13"),
    ("Item { Item { }; }", "Syntax 1:16"),
    ("Item { g { }; }", "Syntax 1:13"),
    ("Item { g { x: 1;; } }", "Syntax 1:17"),
    ("Item { function f() { }; }", "Syntax 1:24"),
    ("Item { x: 1 y: 2 }", "Syntax 1:13"),
    ("Item { id: a x: 1 }", "Syntax 1:14"),
    ("Item { signal s x: 1 }", "Syntax 1:17"),
    ("Item { property int a x: 1 }", "Syntax 1:23"),
    ("Item { onXChanged: a b: 1 }", "Syntax 1:22"),
    ("Item { onXChanged: { a b } }", "Syntax 1:24"),
    ("Item { g { x: 1 y: 2 } }", "Syntax 1:17"),
    // Lines inside a member
    ("Item { x: a\n-b: 1 }", "Syntax 2:3"),
    ("Item { x: a\n -b: 1 }", "Syntax 2:4"),
    ("Item { onFoo: { a\n++\nb } }", "Syntax 2:1"),
    ("Item { onFoo: { a\n-- } }", "Syntax 2:1"),
    ("Item { onFoo: return\na }", "Syntax 2:3"),
    // `else`
    ("Item { else: 3 }", "Syntax 1:8"),
    ("Item { onXChanged: if (a) b;; else: 3 }", "Syntax 1:31"),
    ("Item { onXChanged: if (a) b; else: 3 }", "Syntax 1:34"),
    ("Item { onXChanged: if (a) { }; else b }", "Syntax 1:32"),
    ("Item { onXChanged: { if (a) { }; else b } }", "Syntax 1:34"),
    ("Item { onXChanged: if (a) else b }", "Syntax 1:27"),
    ("Item { onXChanged: else }", "Syntax 1:20"),
    // Members
    ("Item { ; }", "Syntax 1:8"),
    ("Item { 1: 2 }", "Syntax 1:8"),
    ("Item { { } }", "Syntax 1:8"),
    ("Item { x }", "Syntax 1:10"),
    ("Item { x: }", "Syntax 1:11"),
    ("Item { id: 1 }", "Syntax 1:12"),
    ("Item { id.x: 1 }", "Syntax 1:10"),
    ("Item { id { } }", "Syntax 1:11"),
    ("Item { property: 1 }", "Syntax 1:16"),
    ("Item { property int: 1 }", "Syntax 1:20"),
    ("Item { property int }", "Syntax 1:21"),
    ("Item { property a.b c }", "Syntax 1:18"),
    ("Item { readonly int a }", "Syntax 1:17"),
    ("Item { readonly: 1 }", "Syntax 1:16"),
    ("Item { readonly required property int a }", "Syntax 1:17"),
    ("Item { signal: 1 }", "Syntax 1:14"),
    ("Item { signal s: 1 }", "Syntax 1:16"),
    ("Item { signal s(, int a) }", "Syntax 1:17"),
    ("Item { signal s(int) }", "Syntax 1:20"),
    ("Item { signal s(int a,) }", "Syntax 1:23"),
    ("Item { signal s(int a int b) }", "Syntax 1:23"),
    ("Item { signal s(a.b c) }", "Syntax 1:18"),
    ("Item { function: 1 }", "Syntax 1:16"),
    ("Item { function f { } }", "Syntax 1:19"),
    ("Item { function f(1) { } }", "Syntax 1:19"),
    ("Item { function f(a b) { } }", "Syntax 1:21"),
    ("Item { function f(a,) { } }", "Syntax 1:21"),
    ("Item { function f() a }", "Syntax 1:21"),
    // Paths, groups and type names
    ("Item { anchors.onFoo: 1 }", "Syntax 1:16"),
    ("Item { anchors { onFoo: 1 } }", "Syntax 1:18"),
    ("Item { A.onFoo: 1 }", "Syntax 1:10"),
    ("Item { a.b.c: 1 }", "Syntax 1:11"),
    ("Item { a.b.c { } }", "Syntax 1:11"),
    ("Item { A.b { } }", "Syntax 1:12"),
    ("Item { A.b.c { } }", "Syntax 1:11"),
    ("Item { a.B { } }", "Syntax 1:12"),
    ("Item { a.b { c: 1 } }", "Syntax 1:12"),
    ("Item { A.b on x { } }", "Syntax 1:12"),
    ("Item { Component.onCompleted { } }", "Syntax 1:30"),
    ("Item { _a { } }", "Syntax 1:11"),
    ("Item { x: _a { } }", "Syntax 1:14"),
    ("Item { x: foo { } }", "Syntax 1:15"),
    ("Item { x: A.b { } }", "Syntax 1:15"),
    ("Item { x: a.b.c { } }", "Syntax 1:17"),
    ("Item { x: A.onFoo { } }", "Syntax 1:19"),
    ("Item { x: 1 + A.B { } }", "Syntax 1:19"),
    ("Item { onFoo: A.B { } }", "Syntax 1:19"),
    ("Item { x: a.B\n{ } }", "Syntax 2:1"),
    ("Item { foo on x { } }", "Syntax 1:12"),
    ("Item { p: Foo on x { } }", "Syntax 1:15"),
    ("Item { p: A.B on x { } }", "Syntax 1:15"),
    ("Item { g { A { } } }", "Syntax 1:14"),
    ("Item { g { A on x { } } }", "Syntax 1:14"),
    ("Item { g { a.b: 1 } }", "Syntax 1:13"),
    ("Item { g { A.B { } } }", "Syntax 1:13"),
    ("Item { g { property int a } }", "Syntax 1:21"),
    // Expressions
    ("Item { x: a in b }", "Syntax 1:13"),
    ("Item { x: a b }", "Syntax 1:13"),
    ("Item { x: - }", "Syntax 1:13"),
    ("Item { x: () }", "Syntax 1:12"),
    ("Item { x: (a }", "Syntax 1:14"),
    ("Item { x: f(, a) }", "Syntax 1:13"),
    ("Item { x: f(a,) }", "Syntax 1:15"),
    ("Item { x: f(a; }", "Syntax 1:14"),
    ("Item { x: a.1 }", "Syntax 1:13"),
    ("Item { x: a.(b) }", "Syntax 1:13"),
    ("Item { x: a : b }", "Syntax 1:13"),
    ("Item { x: a ? b }", "Syntax 1:17"),
    ("Item { x: a++ }", "Syntax 1:12"),
    ("Item { x: a = 1 }", "Syntax 1:13"),
    // Statements
    ("Item { onFoo: var }", "Syntax 1:19"),
    ("Item { onFoo: var 1 }", "Syntax 1:19"),
    ("Item { onFoo: var a, b }", "Syntax 1:20"),
    ("Item { onFoo: f() = 1 }", "Syntax 1:19"),
    ("Item { onFoo: (a) = 1 }", "Syntax 1:19"),
    ("Item { onFoo: 1++ }", "Syntax 1:16"),
    ("Item { onFoo: true.b = 1 }", "Syntax 1:22"),
    ("Item { onFoo: ++a }", "Syntax 1:15"),
    ("Item { onFoo: { var if; if = 1 } }", "Syntax 1:28"),
    ("Item { onFoo: { var true; true = 1 } }", "Syntax 1:32"),
    ("Item { onFoo: if a }", "Syntax 1:18"),
    ("Item { onFoo: while a }", "Syntax 1:21"),
    // Parts of `for`
    ("Item { onClicked: for (let i = 0;;) a }", "Syntax 1:24"),
    ("Item { onClicked: for (const i = 0;;) a }", "Syntax 1:24"),
    ("Item { onClicked: for (var i;;) a }", "Syntax 1:29"),
    ("Item { onClicked: for (var i in a) b }", "Syntax 1:30"),
    ("Item { onClicked: for (a;;) b }", "Syntax 1:25"),
    ("Item { onClicked: for (f();;) a }", "Syntax 1:25"),
    ("Item { onClicked: for ({;;) a }", "Syntax 1:24"),
    ("Item { onClicked: for (;var i = 0;) a }", "Syntax 1:25"),
    ("Item { onClicked: for (;;a) b }", "Syntax 1:27"),
    ("Item { onClicked: for (;;f()) a }", "Syntax 1:27"),
    ("Item { onClicked: for (;;{) a }", "Syntax 1:26"),
    ("Item { onClicked: for (;;let i = 0) a }", "Syntax 1:26"),
    // Of two faults the earlier one
    ("Item { x: ) [ }", "Syntax 1:11"),
    ("Item { ; 0.5 }", "Syntax 1:8"),
    ("Item { x: a b + this }", "Syntax 1:13"),
];

#[test]
fn tokens_that_cannot_stand_there(rt: HostRuntime) -> Result<(), Fail> {
    assert_eq!(rt; differing(rt.alloc(), OUT_OF_PLACE)?.as_str(), "");
    Ok(())
}

const ONLY_QML: &[(&str, &str)] = &[
    // Imports
    ("import Foo", "Unsupported 1:8"),
    ("import Foo 2", "Unsupported 1:8"),
    ("import Foo 2.5 as F", "Unsupported 1:8"),
    ("import Foo . 5", "Unsupported 1:8"),
    ("import QtQuick2.15", "Unsupported 1:8"),
    ("import QtQuick.Foo . 5", "Unsupported 1:8"),
    ("import QtQuick. 2.1", "Unsupported 1:17"),
    ("import qtquick 2.5", "Unsupported 1:8"),
    ("import QtQuick.Controls 2.5", "Unsupported 1:8"),
    ("import QtQuick 2.16", "Unsupported 1:8"),
    ("import QtQuick 2.99999999999", "Unsupported 1:8"),
    ("import QtQuick 1.5", "Unsupported 1:8"),
    ("import QtQuick 3.0", "Unsupported 1:8"),
    ("import \"a.js\"", "Unsupported 1:8"),
    ("import 'a.js' as A", "Unsupported 1:8"),
    ("import QtQuick 2.5 as Q", "Unsupported 1:20"),
    ("import QtQuick 2.5\nas Q", "Unsupported 2:1"),
    // `[`
    ("[", "Unsupported 1:1"),
    ("Item { } [", "Unsupported 1:10"),
    ("Item [", "Unsupported 1:6"),
    ("import [", "Unsupported 1:8"),
    ("import QtQuick 2.5 [", "Unsupported 1:20"),
    ("Item { [ }", "Unsupported 1:8"),
    ("\u{feff}Item { id: [ }", "Unsupported 1:15"),
    ("Item { x[0]: 1 }", "Unsupported 1:9"),
    ("Item { g { [ } }", "Unsupported 1:12"),
    ("Item { property [ }", "Unsupported 1:17"),
    ("Item { property var a [ }", "Unsupported 1:23"),
    ("Item { signal s[ }", "Unsupported 1:16"),
    ("Item { function f([ }", "Unsupported 1:19"),
    ("Item { x: [1] }", "Unsupported 1:11"),
    ("Item { x: 1 + [1] }", "Unsupported 1:15"),
    ("Item { x: -[1] }", "Unsupported 1:12"),
    ("Item { x: f([1]) }", "Unsupported 1:13"),
    ("Item { x: a ? [1] : b }", "Unsupported 1:15"),
    ("Item { x: a[1] }", "Unsupported 1:12"),
    ("Item { x: (a [ }", "Unsupported 1:14"),
    ("Item { p: A { }[ }", "Unsupported 1:16"),
    ("Item { onFoo: [1] }", "Unsupported 1:15"),
    ("Item { onFoo: a[1] = 2 }", "Unsupported 1:16"),
    ("Item { onFoo: return [1] }", "Unsupported 1:22"),
    ("Item { onFoo: if [ }", "Unsupported 1:18"),
    ("Item { onFoo: for ([ }", "Unsupported 1:20"),
    ("Item { onFoo: { var [ } }", "Unsupported 1:21"),
    // `{` where an expression begins
    ("Item { x: { } }", "Unsupported 1:11"),
    ("Item { property var a: { } }", "Unsupported 1:24"),
    ("Item { g { x: { } } }", "Unsupported 1:15"),
    ("Item { onfoo: { } }", "Unsupported 1:15"),
    ("Item { Component.foo: { } }", "Unsupported 1:23"),
    ("Item { x: 1 + { } }", "Unsupported 1:15"),
    ("Item { x: a && { } }", "Unsupported 1:16"),
    ("Item { x: -{ } }", "Unsupported 1:12"),
    ("Item { x: ({ }) }", "Unsupported 1:12"),
    ("Item { x: f({ }) }", "Unsupported 1:13"),
    ("Item { x: f(a, { }) }", "Unsupported 1:16"),
    ("Item { x: a ? { } : b }", "Unsupported 1:15"),
    ("Item { x: a ? b : { } }", "Unsupported 1:19"),
    ("Item { onFoo: a = { } }", "Unsupported 1:19"),
    ("Item { onFoo: var a = { } }", "Unsupported 1:23"),
    ("Item { onFoo: return { } }", "Unsupported 1:22"),
    ("Item { onFoo: if ({ }) a }", "Unsupported 1:19"),
    ("Item { onFoo: while ({ }) a }", "Unsupported 1:22"),
    ("Item { onFoo: for (;{ };) a }", "Unsupported 1:21"),
    ("Item { onFoo: for (a = { };;) b }", "Unsupported 1:24"),
    ("Item { onFoo: for (;;a = { }) b }", "Unsupported 1:26"),
    // Decimals
    ("Item { x: 0.5 }", "Unsupported 1:11"),
    ("Item { width: 0.5 }", "Unsupported 1:15"),
    ("Item { x: 00.5 }", "Unsupported 1:11"),
    ("Item { x: 99999999999.5 }", "Unsupported 1:11"),
    ("Item { x: 1.5.x }", "Unsupported 1:11"),
    ("Item { x: 1 + 0.5 }", "Unsupported 1:15"),
    ("Item { x: -0.5 }", "Unsupported 1:12"),
    ("Item { x: f(0.5) }", "Unsupported 1:13"),
    ("Item { x: a.0.5 }", "Unsupported 1:13"),
    ("Item { x: 1 0.5 }", "Unsupported 1:13"),
    ("Item { onFoo: 0.5 }", "Unsupported 1:15"),
    ("Item { onFoo: a = 0.5 }", "Unsupported 1:19"),
    ("Item { onFoo: if (0.5) a }", "Unsupported 1:19"),
    ("Item { 0.5 }", "Unsupported 1:8"),
    ("Item { } 0.5", "Unsupported 1:10"),
    ("0.5", "Unsupported 1:1"),
    ("import 2.5", "Unsupported 1:8"),
    ("import QtQuick 2.5 2.5", "Unsupported 1:20"),
    // What begins a member
    ("Item { default: 1 }", "Unsupported 1:8"),
    ("Item { default property int a }", "Unsupported 1:8"),
    ("Item { default { } }", "Unsupported 1:8"),
    ("Item { enum E { } }", "Unsupported 1:8"),
    ("Item { enum: 1 }", "Unsupported 1:8"),
    ("Item { required property int a }", "Unsupported 1:8"),
    ("Item { required a }", "Unsupported 1:8"),
    ("Item { required.a: 1 }", "Unsupported 1:8"),
    ("Item { Foo on x { } }", "Unsupported 1:12"),
    ("Item { Foo\non x { } }", "Unsupported 2:1"),
    ("Item { Foo on: 1 }", "Unsupported 1:12"),
    // `alias`
    ("Item { property alias a: b }", "Unsupported 1:17"),
    ("Item { property alias a }", "Unsupported 1:17"),
    ("Item { property alias: 1 }", "Unsupported 1:17"),
    ("Item { readonly property alias a: b }", "Unsupported 1:26"),
    // Dotted type names
    ("A.B { }", "Unsupported 1:1"),
    ("A.b.C { }", "Unsupported 1:1"),
    ("Item { A.B { } }", "Unsupported 1:8"),
    ("Item { A.B\n{ } }", "Unsupported 1:8"),
    ("Item { A.b.C { } }", "Unsupported 1:8"),
    ("Item { A.onFoo.B { } }", "Unsupported 1:8"),
    ("Item { A.B on x { } }", "Unsupported 1:8"),
    ("Item { A.b.C on x { } }", "Unsupported 1:8"),
    ("Item { x: A.B { } }", "Unsupported 1:11"),
    ("Item { x: A.b.C { } }", "Unsupported 1:11"),
    ("Item { property A a: A.B { } }", "Unsupported 1:22"),
    ("Item { g { x: A.B { } } }", "Unsupported 1:15"),
    ("Item { property A.B c }", "Unsupported 1:17"),
    ("Item { property A.b c }", "Unsupported 1:17"),
    ("Item { readonly property A.B c }", "Unsupported 1:26"),
    ("Item { signal s(A.B c) }", "Unsupported 1:17"),
    ("Item { signal s(int a, A.b c) }", "Unsupported 1:24"),
    // `function` where an expression or a statement begins
    ("Item { x: function() { } }", "Unsupported 1:11"),
    (
        "Item { property var a: function() { } }",
        "Unsupported 1:24",
    ),
    ("Item { g { x: function() { } } }", "Unsupported 1:15"),
    ("Item { x: 1 + function() { } }", "Unsupported 1:15"),
    ("Item { x: (function() { })() }", "Unsupported 1:12"),
    ("Item { x: f(function() { }) }", "Unsupported 1:13"),
    ("Item { x: a ? function() { } : b }", "Unsupported 1:15"),
    (
        "Item { onClicked: function(mouse) { } }",
        "Unsupported 1:19",
    ),
    (
        "Item { onClicked: { function a() { } } }",
        "Unsupported 1:21",
    ),
    (
        "Item { onClicked: if (a) function b() { } }",
        "Unsupported 1:26",
    ),
    (
        "Item { onClicked: if (function() { }) a }",
        "Unsupported 1:23",
    ),
    ("Item { onClicked: a = function() { } }", "Unsupported 1:23"),
    (
        "Item { onClicked: var a = function() { } }",
        "Unsupported 1:27",
    ),
    (
        "Item { onClicked: return function() { } }",
        "Unsupported 1:26",
    ),
    // Other words
    ("Item { x: 1 + this }", "Unsupported 1:15"),
    ("Item { onClicked: switch (a) { } }", "Unsupported 1:19"),
    // Of two faults the earlier one
    ("import Foo [", "Unsupported 1:8"),
    ("Item { x: 1 + this [ }", "Unsupported 1:15"),
];

#[test]
fn what_only_qml_has(rt: HostRuntime) -> Result<(), Fail> {
    assert_eq!(rt; differing(rt.alloc(), ONLY_QML)?.as_str(), "");
    Ok(())
}

const NO_TOKENS: &[(&str, &str)] = &[
    ("@", "BadToken 1:1"),
    ("Item { @ }", "BadToken 1:8"),
    ("} @", "BadToken 1:3"),
    ("Item { ) @ }", "BadToken 1:10"),
    ("Item { [ 0.5 @ }", "BadToken 1:14"),
    ("Item\r\n{\r\r@", "BadToken 2:4"),
    ("\u{feff}@", "BadToken 1:4"),
    ("Item { \u{feff} }", "BadToken 1:8"),
    ("Item { x: 'é' é }", "BadToken 1:16"),
    ("Item { } /*", "BadToken 1:10"),
    ("Item { } /*/", "BadToken 1:10"),
    ("Item { x: 0.5px }", "BadToken 1:11"),
    ("Item { x: 0.5_ }", "BadToken 1:11"),
    ("Item { x: 1é }", "BadToken 1:12"),
    ("Item { x: 1px }", "BadToken 1:11"),
    ("Item { x: 01 }", "BadToken 1:11"),
    ("Item { x: 007 }", "BadToken 1:11"),
    ("Item { x: -2147483648 }", "BadToken 1:12"),
    ("Item { x: 0x }", "BadToken 1:11"),
    ("Item { x: 0X1 }", "BadToken 1:11"),
    ("Item { x: 0x1g }", "BadToken 1:11"),
    ("Item { x: 0x80000000 }", "BadToken 1:11"),
    ("Item {\n x: 'a\n' }", "BadToken 2:5"),
    ("Item { x: 'a\\\n' }", "BadToken 1:11"),
    ("Item { x: 'a", "BadToken 1:11"),
    ("Item { x: 'a\" }", "BadToken 1:11"),
    ("Item { x: '\\q' }", "BadToken 1:11"),
    ("Item { x: '\\u12' }", "BadToken 1:11"),
    ("Item { x: '\\ud800' }", "BadToken 1:11"),
];

#[test]
fn texts_that_are_no_tokens(rt: HostRuntime) -> Result<(), Fail> {
    assert_eq!(rt; differing(rt.alloc(), NO_TOKENS)?.as_str(), "");
    Ok(())
}

const NO_TEXTS: &[(&[u8], &str)] = &[
    (b"Item { @ \xff }", "NotUtf8 9"),
    (b"\xef\xbb\xbf\xff", "NotUtf8 3"),
    (b"Item { } \xe2\x82", "NotUtf8 9"),
    (b"Item { x: '\xf0\x9f\x98' }", "NotUtf8 11"),
    (b"\xed\xa0\x80", "NotUtf8 0"),
    (b"\xc0\x80", "NotUtf8 0"),
];

fn differing_bytes(alloc: Global) -> Result<String, AllocError> {
    let mut report = String::new(alloc);
    for (bytes, wanted) in NO_TEXTS {
        note(&mut report, wanted, answer(alloc, bytes)?.as_str(), wanted)?;
    }
    Ok(report)
}

#[test]
fn bytes_that_are_no_utf8(rt: HostRuntime) -> Result<(), Fail> {
    assert_eq!(rt; differing_bytes(rt.alloc())?.as_str(), "");
    Ok(())
}

// Fronts

const RED: &str = r##"Rectangle { width: 2; height: 1; color: "#ff0000" }"##;

/// The fault of the document's bytes in front of this column: within the text between the quotes that of
/// the opening quote, and else that of the end.
fn front_fault(col: u32) -> DocFault {
    if col > 41 && col < 50 {
        let at = Span { line: 1, col: 41 };
        return DocFault::BadToken { at };
    }
    DocFault::Syntax {
        at: Span { line: 1, col },
    }
}

fn differing_fronts(alloc: Global) -> Result<String, AllocError> {
    let mut report = String::new(alloc);
    for len in 0..RED.len() {
        let wanted = told_fault(alloc, front_fault(len as u32 + 1))?;
        let found = answer(alloc, &RED.as_bytes()[..len])?;
        note(&mut report, "a front", found.as_str(), wanted.as_str())?;
    }
    note(
        &mut report,
        RED,
        answer(alloc, RED.as_bytes())?.as_str(),
        "ok",
    )?;
    Ok(report)
}

#[test]
fn every_front_of_a_document_is_refused_at_its_end(rt: HostRuntime) -> Result<(), Fail> {
    assert_eq!(rt; differing_fronts(rt.alloc())?.as_str(), "");
    Ok(())
}
