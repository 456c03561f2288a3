//! Lists of documents: their order, and their first faults.

use crate::store::gives;
use std::test::Fail;

/// The files, and what a load of `Main.qml` gives.
const ROWS: &[(&str, &str)] = &[
    // Breadth first, by first mention.
    ("Main.qml: Item { }", "Main.qml "),
    (
        "Main.qml: Item { A { } B { } }\nA.qml: Item { C { } }\nB.qml: Item { D { } }\nC.qml: Item { }\nD.qml: Item { }",
        "Main.qml A.qml B.qml C.qml D.qml ",
    ),
    (
        "Main.qml: Item { property B b; A { } }\nA.qml: Item { C { } }\nB.qml: Item { D { } A { } }\nC.qml: Item { }\nD.qml: Item { }",
        "Main.qml B.qml A.qml D.qml C.qml ",
    ),
    (
        "Main.qml: A { B { } C { } B { } }\nA.qml: Item { }\nB.qml: C { A { } }\nC.qml: A { }",
        "Main.qml A.qml B.qml C.qml ",
    ),
    // A document that is named as a type of the engine is nobody's type.
    (
        "Main.qml: Item { Rectangle { } }\nRectangle.qml: Item { foo: 1 }",
        "Main.qml ",
    ),
    // What is missing: the document itself, or a type at its first mention in the first document.
    ("A.qml: Item { }", "Main.qml: missing"),
    ("Main.qml: Item { A { } }", "Main.qml: 1:8: unknown type"),
    (
        "Main.qml: Item { property A b; A { } }",
        "Main.qml: 1:17: unknown type",
    ),
    (
        "Main.qml: Item { A { } B { } }\nA.qml: Item { x: 1; X { } }\nB.qml: X { }",
        "A.qml: 1:14: unknown type",
    ),
    (
        "Main.qml: Item { B { } A { } }\nA.qml: Item { x: 1; X { } }\nB.qml: X { }",
        "B.qml: 1:1: unknown type",
    ),
    // In the order of the list, whatever comes later.
    (
        "Main.qml: Item { A { } B { } }\nB.qml: Item { } }",
        "Main.qml: 1:8: unknown type",
    ),
    (
        "Main.qml: Item { A { } B { } }\nA.qml: Item { X { } }\nB.qml: Item { } }",
        "B.qml: 1:10: syntax",
    ),
    ("Main.qml: Item { } }\nA.qml: #", "Main.qml: 1:10: syntax"),
    (
        "Main.qml: A { }\nA.qml: Item { x: # }",
        "A.qml: 1:11: bad token",
    ),
    // Cycles, behind what is missing or no document, and before what does not compile.
    ("Main.qml: Item { Main { } }", "Main.qml: cycle"),
    ("Main.qml: Main { }", "Main.qml: cycle"),
    ("Main.qml: Item { A { } }\nA.qml: A { }", "A.qml: cycle"),
    (
        "Main.qml: Item { A { } }\nA.qml: Item { property A next }",
        "A.qml: cycle",
    ),
    (
        "Main.qml: Item { A { } }\nA.qml: Item { Component { A { } } }",
        "A.qml: cycle",
    ),
    (
        "Main.qml: Item { A { } B { } }\nA.qml: Item { C { } }\nB.qml: Item { C { } }\nC.qml: Item { D { } }\nD.qml: B { }",
        "B.qml: cycle",
    ),
    (
        "Main.qml: Item { A { } B { } }\nA.qml: B { }\nB.qml: A { }",
        "A.qml: cycle",
    ),
    (
        "Main.qml: Item { A { } B { } }\nA.qml: Item { } }\nB.qml: B { }",
        "A.qml: 1:10: syntax",
    ),
    (
        "Main.qml: Item { foo: 1; A { } }\nA.qml: A { }",
        "A.qml: cycle",
    ),
    // Then each is compiled behind those that it mentions.
    (
        "Main.qml: Item { foo: 1; A { } }\nA.qml: Item { bar: 1 }",
        "A.qml: 1:8: unknown property",
    ),
    (
        "Main.qml: Item { foo: 1; A { } }\nA.qml: Item { }",
        "Main.qml: 1:8: unknown property",
    ),
    (
        "Main.qml: Item { A { } B { } }\nA.qml: Item { foo: 1 }\nB.qml: Item { x: 1; foo: 1 }",
        "A.qml: 1:8: unknown property",
    ),
    (
        "Main.qml: Item { A { } B { } }\nA.qml: Item { foo: 1; B { } }\nB.qml: Item { x: 1; foo: 1 }",
        "B.qml: 1:14: unknown property",
    ),
    (
        "Main.qml: Item { A { } B { } }\nA.qml: Item { C { } }\nB.qml: Item { foo: 1 }\nC.qml: Item { x: 1; foo: 1 }",
        "C.qml: 1:14: unknown property",
    ),
    // A type's properties are those of its document.
    (
        "Main.qml: A { n: 1 }\nA.qml: Item { property int n }",
        "Main.qml A.qml ",
    ),
    (
        "Main.qml: A { n: 1; m: 1 }\nA.qml: B { property int n }\nB.qml: Item { }",
        "Main.qml: 1:11: unknown property",
    ),
];

/// Names of documents, the file of each, and what a load of it gives.
const NAMES: &[(&str, &str, &str)] = &[
    ("A.qml", "A.qml: Rectangle { }", "A.qml "),
    ("Item.qml", "Item.qml: Rectangle { }", "Item.qml "),
    (".qml", ".qml: Rectangle { }", ".qml: missing"),
    ("A.qm", "A.qm: Rectangle { }", "A.qm: missing"),
    ("A.qmlx", "A.qmlx: Rectangle { }", "A.qmlx: missing"),
    ("A.QML", "A.QML: Rectangle { }", "A.QML: missing"),
    ("a/A.qml", "a/A.qml: Rectangle { }", "a/A.qml: missing"),
    ("/A.qml", "/A.qml: Rectangle { }", "/A.qml: missing"),
    ("a\0A.qml", "a\0A.qml: Rectangle { }", "a\0A.qml: missing"),
    ("", ": Rectangle { }", ": missing"),
    ("a b.qml", "a b.qml: Rectangle { }", "a b.qml "),
];

#[test]
fn lists_and_their_first_faults(rt: HostRuntime) -> Result<(), Fail> {
    for (lines, wanted) in ROWS {
        assert!(rt;
            gives(rt.alloc(), "Main.qml", &[(*lines, 0)], wanted)?,
            "{lines}"
        );
    }
    Ok(())
}

#[test]
fn names_of_files(rt: HostRuntime) -> Result<(), Fail> {
    for (name, lines, wanted) in NAMES {
        assert!(rt; gives(rt.alloc(), name, &[(*lines, 0)], wanted)?, "{lines}");
    }
    Ok(())
}
