//! Faults of handlers and of what is bound.

use crate::worlds::{NONE, Step, passes, passes_within};
use qml_ast::DocFault;
use std::alloc::Global;
use std::test::Fail;

/// A statement, and its fault.
const STATEMENTS: &[(&str, &str)] = &[
    // in each position
    ("1 / 0", "zero divisor"),
    ("n = 1 / 0", "zero divisor"),
    ("n /= 0", "zero divisor"),
    ("n = 5 % 0", "zero divisor"),
    ("return 1 / 0", "zero divisor"),
    ("var k = 1 / 0", "zero divisor"),
    ("var k; k = 1 / 0", "zero divisor"),
    ("if (1 / 0) ;", "zero divisor"),
    ("while (1 / 0) ;", "zero divisor"),
    ("for (var i = 1 / 0; ; ) ;", "zero divisor"),
    ("for (; 1 / 0; ) ;", "zero divisor"),
    ("for (; ; n = 1 / 0) ;", "zero divisor"),
    ("for (; ; ) { 1 / 0 }", "zero divisor"),
    ("{ { 1 / 0 } }", "zero divisor"),
    ("console.log('a', 1 / 0)", "zero divisor"),
    ("hit(1 / 0)", "zero divisor"),
    ("f(1 / 0)", "zero divisor"),
    ("n = f(1 / 0)", "zero divisor"),
    // numbers
    ("n = 2147483647 + 1", "overflow"),
    ("n = 2147483647; n++", "overflow"),
    ("n = -2147483647; n -= 2", "overflow"),
    ("n = (-2147483647 - 1) / -1", "overflow"),
    ("n = 65536; n *= 32768", "overflow"),
    ("n = Math.abs(-2147483647 - 1)", "overflow"),
    // what a slot does not take
    ("n = 'a'", "wrong kind"),
    ("n = true", "wrong kind"),
    ("n = undefined", "wrong kind"),
    ("b = 1", "wrong kind"),
    ("c = 'no colour'", "wrong kind"),
    ("o = 5", "wrong kind"),
    // what cannot be combined
    ("b++", "wrong kind"),
    ("s--", "wrong kind"),
    ("s -= 1", "wrong kind"),
    ("b += 1", "wrong kind"),
    ("n += true", "wrong kind"),
    ("n = 1 < 'a'", "wrong kind"),
    ("var k = true; k++", "wrong kind"),
    // what cannot be called so
    ("hit('a')", "wrong kind"),
    ("hit()", "wrong kind"),
    ("hit(1, 2)", "wrong kind"),
    ("hit(1 / 0, 2)", "wrong kind"),
    ("paint('no colour')", "wrong kind"),
    ("f()", "wrong kind"),
    ("f(1, 2)", "wrong kind"),
    ("Math.min(1)", "wrong kind"),
    ("Math.min(1, 'a')", "wrong kind"),
    ("n()", "wrong kind"),
    ("r.n(1 / 0)", "wrong kind"),
    ("n = hit(1)", "wrong kind"),
    ("n = console.log(1)", "wrong kind"),
    ("n = two()", "wrong kind"),
    ("if (two()) ;", "wrong kind"),
    // what is no value and no target
    ("n = f", "wrong kind"),
    ("n = hit", "wrong kind"),
    ("n = console", "wrong kind"),
    ("f = 1", "wrong kind"),
    ("hit = 1", "wrong kind"),
    ("Math = 1", "wrong kind"),
    ("anchors = 1", "wrong kind"),
    ("r = 5", "wrong kind"),
    ("n.x = 1", "wrong kind"),
    ("n = s.x", "wrong kind"),
    // names
    ("nope = 1", "unknown name"),
    ("nope()", "unknown name"),
    ("n = nope", "unknown name"),
    ("r.nope = 1 / 0", "unknown name"),
    ("r.nope(1 / 0)", "unknown name"),
    ("console.warn(1)", "unknown name"),
    ("n = Math.nope", "unknown name"),
    ("xChanged()", "unknown name"),
    ("if (false) var w = 1; w = 2", "unknown name"),
    // members of null
    ("o.x = 1 / 0", "member of null"),
    ("n = o.width", "member of null"),
    ("o.f()", "member of null"),
    // what is read only, which is found last but for the slot's kind
    ("fixed = 5", "read only"),
    ("fixed = 'a'", "read only"),
    ("fixed += 'a'", "read only"),
    ("fixed = 1 / 0", "zero divisor"),
    ("fixed += true", "wrong kind"),
    ("parent = null", "read only"),
    ("parent.width = 3", "read only"),
    ("const k = 1; k = 2", "read only"),
    ("const k = 1; k++", "read only"),
    ("const k = 1; k = 1 / 0", "zero divisor"),
    // texts and calls that become too long
    (
        "s = 'aaaaaaaa'; for (var i = 0; i < 14; i++) s += s",
        "text too long",
    ),
    (
        "s = 'aaaaaaaa'; for (var i = 0; i < 13; i++) s += s; console.log(s, '')",
        "text too long",
    ),
    ("n = down(63); n = down(64)", "too much"),
];

/// What stands before and behind the statement, whose handler is in the second line.
const HANDLER: (&str, &str) = (
    "Item { id: r; property int n: 1; property bool b; property string s; property color c; \
    property Item o; readonly property int fixed: 4; signal hit(int k); signal paint(color k); function f(a) { return a } \
    function two() { ; return 1 } function down(a) { return a == 0 ? 0 : down(a - 1) }\n\
    Component.onCompleted: { ",
    "; console.log('never') }\nComponent.onCompleted: console.log('next') }",
);

/// Whether that fault ends the statement's handler, and not the next one.
fn ends_handler(alloc: Global, statement: &str, fault: &str) -> Result<bool, DocFault> {
    let notes = format!(in alloc; "Main.qml:2:1: evaluation fault: {fault}\nqml: next\n")?;
    passes_within(alloc, HANDLER, statement, &[Step::Notes(notes.as_str())])
}

#[test]
fn statements_fault(rt: HostRuntime) -> Result<(), Fail> {
    for (statement, fault) in STATEMENTS {
        assert!(rt; ends_handler(rt.alloc(), statement, fault)?, "{statement}");
    }
    Ok(())
}

/// What stands before and behind an expression that a handler evaluates.
const POSITIONS: &[(&str, &str)] = &[
    ("", ""),
    ("v = ", ""),
    ("v += ", ""),
    ("var k = ", ""),
    ("const k = ", ""),
    ("var k = 1; k -= ", ""),
    ("return ", ""),
    ("if (", ") ;"),
    ("if (false) ; else if (", ") ;"),
    ("while (", ") ;"),
    ("for (var i = ", "; ; ) ;"),
    ("for (v = ", "; ; ) ;"),
    ("for (; ", "; ) ;"),
    ("for (; ; v = ", ") ;"),
    ("for (; ; ) { ", " }"),
    ("{ { ", " } }"),
    ("if (true) v = ", ""),
    ("f(", ")"),
    ("f(f(", "))"),
    ("v = 1 + f(", ")"),
    ("hit(", ")"),
    ("console.log(1, ", ")"),
    ("v = true && ", ""),
    ("v = false || ", ""),
    ("v = true ? ", " : 1"),
];

/// A statement that runs before, an expression, and its fault.
const EXPRESSIONS: &[(&str, &str, &str)] = &[
    ("", "(2147483647 + 1)", "overflow"),
    ("", "(1 / 0)", "zero divisor"),
    ("", "(1 - 'a')", "wrong kind"),
    ("", "f", "wrong kind"),
    ("", "nope", "unknown name"),
    ("", "o.width", "member of null"),
    ("", "(0 + down(64))", "too much"),
    (
        "long = 'aaaaaaaa'; for (var i = 0; i < 13; i++) long += long",
        "(long + 'a')",
        "text too long",
    ),
];

/// A document with a handler for each position, each in a line of its own, of which the first is the second line.
fn document(alloc: Global, before: &str, expression: &str) -> Result<String, DocFault> {
    let mut text = format!(in alloc;
        "Item {{ id: r; property var v: 1; property Item o; property string long; signal hit(var k); \
        onHit: console.log('never'); function f(a) {{ return a }} function down(a) {{ return a == 0 ? 0 : down(a - 1) }} \
        Component.onCompleted: {{ {before} }}\n"
    )?;
    for (start, end) in POSITIONS {
        let handler = format!(in alloc;
            "Component.onCompleted: {{ {start}{expression}{end}; console.log('never') }}\n"
        )?;
        text.push_str(handler.as_str())?;
    }
    text.push_str("Component.onCompleted: console.log('next', v) }")?;
    Ok(text)
}

/// That fault at the handler of each position, with nothing written before.
fn faults(alloc: Global, fault: &str) -> Result<String, DocFault> {
    let mut told = String::new(alloc);
    let mut line: u32 = 1;
    for _ in POSITIONS {
        line = line.saturating_add(1);
        let note = format!(in alloc; "Main.qml:{line}:1: evaluation fault: {fault}\n")?;
        told.push_str(note.as_str())?;
    }
    told.push_str("qml: next 1\n")?;
    Ok(told)
}

/// Whether that fault ends the handler in each position.
fn faults_everywhere(alloc: Global, row: &(&str, &str, &str)) -> Result<bool, DocFault> {
    let text = document(alloc, row.0, row.1)?;
    let notes = faults(alloc, row.2)?;
    passes(alloc, NONE, text.as_str(), &[Step::Notes(notes.as_str())])
}

#[test]
fn each_fault_in_each_position(rt: HostRuntime) -> Result<(), Fail> {
    for row in EXPRESSIONS {
        assert!(rt; faults_everywhere(rt.alloc(), row)?, "{}", row.1);
    }
    Ok(())
}

/// What `A.qml` and `Main.qml` are, and what is noted where `Main.qml` starts.
const DOCUMENTS: &[(&str, &str, &str)] = &[
    // a fault ends its handler alone, and what it did stands
    (
        "Item { }",
        "Item {\nproperty int n: 0\nproperty int m: n\nonNChanged: { m = 9; nope = 1; m = 10 }\nonNChanged: console.log('next', n, m)\n\
         Component.onCompleted: { n = 2; console.log('after', n, m) }\n}",
        "Main.qml:4:1: evaluation fault: unknown name\nqml: next 2 9\nqml: after 2 9\n",
    ),
    // a fault of a method's body ends that body, and stands where its caller does
    (
        "Item { }",
        "Item {\nfunction f() { console.log('in'); g(); 1 / 0; console.log('never') }\nfunction g() { nope = 1 }\n\
         Component.onCompleted: { f(); console.log('after') }\n}",
        "qml: in\nMain.qml:4:1: evaluation fault: unknown name\nMain.qml:4:1: evaluation fault: zero divisor\nqml: after\n",
    ),
    // in an expression it is the expression's
    (
        "Item { }",
        "Item {\nfunction f() { return 1 / 0 }\nComponent.onCompleted: { var k = f(); console.log('never') }\n}",
        "Main.qml:3:1: evaluation fault: zero divisor\n",
    ),
    // the places of two documents
    (
        "Item {\nsignal s\n\n\nonS: nope = 1\nfunction f() { nope = 2 }\n}",
        "A {\nonS: 1 / 0\nComponent.onCompleted: s()\nComponent.onCompleted: f()\n}",
        "A.qml:5:1: evaluation fault: unknown name\nMain.qml:2:1: evaluation fault: zero divisor\nMain.qml:4:1: evaluation fault: unknown name\n",
    ),
    // loops and then faults, before any handler runs
    (
        "Item { }",
        "Item {\nproperty bool on: false\nproperty int f: on ? 1 / 0 : 1\nproperty int l: on ? l : 2\nproperty int g: on ? nope : 3\n\
         onOnChanged: console.log('on', f, l, g)\nComponent.onCompleted: on = true\n}",
        "Main.qml:4:14: Binding loop detected for property \"l\"\nMain.qml:3:14: evaluation fault: zero divisor\n\
         Main.qml:5:14: evaluation fault: unknown name\nqml: on 1 2 3\n",
    ),
    // those of the first settle before any completion
    (
        "Item { }",
        "Item {\nproperty int a: a + 1\nwidth: 1 / 0\nComponent.onCompleted: console.log(a, width)\n}",
        "Main.qml:2:14: Binding loop detected for property \"a\"\nMain.qml:3:1: evaluation fault: zero divisor\nqml: 0 0\n",
    ),
    // a fault is noted where the place had not the same one
    (
        "Item { }",
        "Item {\nproperty int n: 0\nproperty var k: 1\nproperty int q: 6 / n * k\n\
         Component.onCompleted: { n = 0; k = 2; n = 3; console.log(q); k = 'a'; n = 0; k = 1 }\n}",
        "Main.qml:4:14: evaluation fault: zero divisor\nqml: 4\nMain.qml:4:14: evaluation fault: wrong kind\n\
         Main.qml:4:14: evaluation fault: zero divisor\n",
    ),
    // a write to the object resumes what a loop suspended
    (
        "Item { }",
        "Item {\nproperty bool on: true\nproperty int a: on ? a : 5\nproperty int k\nonAChanged: console.log('a', a)\n\
         Component.onCompleted: { k = 1; console.log('k'); on = false }\n}",
        "Main.qml:3:14: Binding loop detected for property \"a\"\nMain.qml:3:14: Binding loop detected for property \"a\"\nqml: k\nqml: a 5\n",
    ),
];

#[test]
fn faults_are_noted(rt: HostRuntime) -> Result<(), Fail> {
    for (first, text, notes) in DOCUMENTS {
        assert!(rt;
            passes(rt.alloc(), first, text, &[Step::Notes(notes)])?,
            "{text}"
        );
    }
    Ok(())
}
