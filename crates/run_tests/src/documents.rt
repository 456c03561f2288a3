use crate::given::{Ending, Given, ends, is_refused, repeated};
use std::test::Fail;

/// A document and what is told of it behind its name.
const REFUSED: [(&str, &str); 14] = [
    ("import QtQuick 1.0\nRectangle { }", "1:8: unsupported"),
    ("import QtQuick2.15\nRectangle { }", "1:8: unsupported"),
    ("Rectangle { x: 0.5 }", "1:16: unsupported"),
    ("Rectangle { x: 1; y: 2; x: 3 }", "1:25: duplicate name"),
    (
        "Rectangle { Rectangle { }\n Item { }\n Row { } }",
        "3:2: unsupported",
    ),
    ("Rectangle { x: 1 +\n}", "2:1: syntax"),
    ("Rectangle {", "1:12: syntax"),
    ("", "1:1: syntax"),
    ("Rectangle { x: 01 }", "1:16: bad token"),
    ("Rectangle { x: 1 /* }", "1:18: bad token"),
    ("Item { color: \"red\" }", "1:8: unknown property"),
    ("QtObject { x: 1 }", "1:12: unknown property"),
    ("\n\n  Timer { }", "3:3: unsupported"),
    ("Foo { bar: 1 }", "1:1: unknown type"),
];

/// A member in the second line of a Rectangle, and what is told behind that line's number.
const MEMBERS: [(&str, &str); 38] = [
    ("X: 1", "1: unknown property"),
    ("x: true", "4: wrong literal"),
    ("x: \"#000000\"", "4: wrong literal"),
    ("x: ('a')", "5: wrong literal"),
    ("x: Rectangle { }", "4: wrong literal"),
    ("x: 1; x: 2", "7: duplicate name"),
    ("color: 1", "8: wrong literal"),
    ("anchors: 1", "1: unknown property"),
    ("anchors.x: 1", "1: unknown property"),
    ("anchors.fill: Row { }", "15: unsupported"),
    ("parent: null", "1: read only"),
    ("readonly property int a; a: 1", "26: read only"),
    ("property int a: 1; a: 2", "20: duplicate name"),
    ("property int a; property int a", "30: duplicate name"),
    ("property int x", "14: duplicate name"),
    ("property int anchors", "14: duplicate name"),
    ("property int a: \"b\"", "17: wrong literal"),
    ("property bool a: 1", "18: wrong literal"),
    ("property string a: null", "20: wrong literal"),
    ("property alias a: b", "10: unsupported"),
    ("property Foo a", "10: unknown type"),
    ("signal s(Foo a)", "10: unknown type"),
    ("onS: ;", "1: unknown property"),
    ("function f(a, a) { }", "15: duplicate name"),
    ("id: A", "5: bad id"),
    ("id: a; id: b", "12: duplicate id"),
    ("id: a; Item { id: a }", "19: duplicate id"),
    ("property Item a: Timer { }", "18: unsupported"),
    ("Item { Row { } }", "8: unsupported"),
    ("QtObject { } Loader { } Row { }", "14: unsupported"),
    ("Rectangles { }", "1: unknown type"),
    ("Row { }", "1: unsupported"),
    ("Column { }", "1: unsupported"),
    ("MouseArea { }", "1: unsupported"),
    ("Timer { }", "1: unsupported"),
    ("Loader { }", "1: unsupported"),
    ("Component { Item { } }", "1: unsupported"),
    ("Component { }", "1: unknown property"),
];

#[test]
fn members_that_do_not_run(rt: HostRuntime) -> Result<(), Fail> {
    for (member, told) in MEMBERS {
        let document = format!(in rt.alloc(); "Rectangle {{\n{member}\n}}")?;
        let line = format!(in rt.alloc(); "qmlstage: Main.qml:2:{told}\n")?;
        assert!(rt;
            is_refused(rt.alloc(), document.as_str(), "", line.as_str(), 4)?,
            "{member}"
        );
    }
    Ok(())
}

#[test]
fn documents_that_are_refused(rt: HostRuntime) -> Result<(), Fail> {
    for (document, place) in REFUSED {
        let line = format!(in rt.alloc(); "qmlstage: Main.qml:{place}\n")?;
        assert!(rt;
            is_refused(rt.alloc(), document, "frame", line.as_str(), 4)?,
            "{place}"
        );
    }
    Ok(())
}

/// A main document, the document `A.qml`, and what is told of the two.
const UNITS: [(&str, &str, &str); 18] = [
    (
        "Item { A { } }",
        "Rectangle { Row { } }",
        "A.qml:1:13: unsupported",
    ),
    (
        "Item { Row { } A { } }",
        "Item { Row { } }",
        "Main.qml:1:8: unsupported",
    ),
    ("Item { B { } }", "Item { }", "Main.qml:1:8: unknown type"),
    (
        "Item { A { } }",
        "Item { B { } }",
        "A.qml:1:8: unknown type",
    ),
    (
        "Item { A { } B { } }",
        "Item { B { } }",
        "Main.qml:1:14: unknown type",
    ),
    ("Item { A { } B { } }", "Item {", "A.qml:1:7: syntax"),
    ("Item { A { } }", "Item { A { } }", "A.qml: cycle"),
    (
        "Item { property A a }",
        "Item { property A a }",
        "A.qml: cycle",
    ),
    ("Item { Main { } }", "Item { }", "Main.qml: cycle"),
    ("Item { A { } }", "Item { Main { } }", "Main.qml: cycle"),
    (
        "Item { A { } Row { } }",
        "Item { x: \"a\" }",
        "A.qml:1:11: wrong literal",
    ),
    (
        "Item { x: \"a\"; A { } }",
        "Item { id: B }",
        "A.qml:1:12: bad id",
    ),
    (
        "Item { A { y: 1 } }",
        "QtObject { }",
        "Main.qml:1:12: unknown property",
    ),
    (
        "Item { A { a: true } }",
        "Item { property int a }",
        "Main.qml:1:15: wrong literal",
    ),
    (
        "A { property int a }",
        "Item { property int a }",
        "Main.qml:1:18: duplicate name",
    ),
    (
        "A { a: 1 }",
        "Item { readonly property int a: 2 }",
        "Main.qml:1:5: read only",
    ),
    (
        "A { id: a; A { id: a } }",
        "Item { }",
        "Main.qml:1:20: duplicate id",
    ),
    (
        "A { Item { id: a } }",
        "Item { id: a; Timer { } }",
        "A.qml:1:15: unsupported",
    ),
];

#[test]
fn units_that_are_refused(rt: HostRuntime) -> Result<(), Fail> {
    for (main, other, told) in UNITS {
        let given = Given {
            words: &["Main.qml", "script.txt"],
            files: &[
                ("Main.qml", main),
                ("A.qml", other),
                ("script.txt", "frame"),
            ],
            failing: 0,
            room: 0,
        };
        let line = format!(in rt.alloc(); "qmlstage: {told}\n")?;
        let ending = Ending {
            line: line.as_str(),
            exit: 4,
            moves: 0,
            bytes: 0,
        };
        assert!(rt; ends(rt.alloc(), &given, &ending)?, "{told}");
    }
    Ok(())
}

/// How many spaces stand behind the document `A.qml`, of 8 bytes, and how a run ends whose frames have no room.
const LENGTHS: [(usize, &str, u8, usize); 2] = [
    (1_048_568, "qmlstage: write fault\n", 6, 1),
    (1_048_569, "qmlstage: A.qml: too long\n", 4, 0),
];

#[test]
fn documents_as_long_as_they_may_be(rt: HostRuntime) -> Result<(), Fail> {
    for (spaces, line, exit, moves) in LENGTHS {
        let mut other = repeated(rt.alloc(), " ", spaces)?;
        other.push_str("Item { }")?;
        let given = Given {
            words: &["Main.qml", "script.txt"],
            files: &[
                ("Main.qml", "Item { A { } }"),
                ("A.qml", other.as_str()),
                ("script.txt", "frame"),
            ],
            failing: 0,
            room: 0,
        };
        let ending = Ending {
            line,
            exit,
            moves,
            bytes: 0,
        };
        assert!(rt; ends(rt.alloc(), &given, &ending)?, "{line}");
    }
    Ok(())
}
