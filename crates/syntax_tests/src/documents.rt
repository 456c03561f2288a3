//! Documents with each part and its place.

use crate::report::{note, told_fault};
use crate::told::told_document;
use qml_parse::parse;
use std::alloc::{AllocError, Global};
use std::test::Fail;

/// The parts of a text's document with their places, or the text's fault.
fn told(alloc: Global, bytes: &[u8]) -> Result<String, AllocError> {
    if bytes.len() > 1_000_000 {
        return String::from_str(alloc, "too long");
    }
    match parse(alloc, bytes) {
        Ok(document) => told_document(alloc, &document),
        Err(fault) => told_fault(alloc, fault),
    }
}

const EACH_MEMBER: &str = "import QtQuick 2.05
Item {
  id: a
  property int b: (1)
  readonly property A c: A { }
  property var d
  signal s(int x, A y)
  signal t
  function f(x, y) { ; ; }
  border { color: 'red'; width: 2 }
  Component.onCompleted: b = 2
  x: b
  Item { }
}
";

const DOCUMENTS: &[(&str, &str)] = &[
    (
        EACH_MEMBER,
        "QtQuick 2.5 1:8; Item 2:1 {id a 3:7; \
        property false int 4:12 b 4:16 = 1 4:20; \
        property true A 5:21 c 5:23 = A 5:26 {} 5:26; \
        property false var 6:12 d 6:16 = nothing 6:16; \
        signal s 7:10 int 7:12 x 7:16 A 7:19 y 7:21; \
        signal t 8:10; \
        method f 9:12 x 9:14 y 9:17 of 2; \
        border.color 10:12 = red 10:19; \
        border.width 10:26 = 2 10:33; \
        Component.onCompleted 11:3 does assignment; \
        x 12:3 = b 12:6; \
        Item 13:3 {}; }",
    ),
    // A grouped initialiser stands at its inner name.
    (
        "Item { anchors { fill: parent; foo: 1 } }",
        "Item 1:1 {anchors.fill 1:18 = parent 1:24; anchors.foo 1:32 = 1 1:37; }",
    ),
    // A literal stands at its own token, in parentheses too; another value at its first one.
    (
        "Item { x: (('a')); y: (1).a; z: (-1); w: -1; v: (null) }",
        "Item 1:1 {x 1:8 = a 1:13; y 1:20 = expression 1:23; z 1:30 = expression 1:33; \
        w 1:39 = expression 1:42; v 1:46 = null 1:50; }",
    ),
    // Members that go on over the end of a line.
    (
        "Item { p: A\n{ } signal s\n(int a)\nonFoo: a\n= 1\nonBar: a\n(b) }",
        "Item 1:1 {p 1:8 = A 1:11 {} 1:11; signal s 2:12 int 3:2 a 3:6; \
        onFoo 4:1 does assignment; onBar 6:1 does do; }",
    ),
    // The three bytes of a byte order mark count; a carriage return ends no line.
    (
        "\u{feff}import QtQuick 2.015\r\nItem\r{ }",
        "QtQuick 2.15 1:11; Item 2:1 {}",
    ),
];

fn differing(alloc: Global) -> Result<String, AllocError> {
    let mut report = String::new(alloc);
    for (text, wanted) in DOCUMENTS {
        note(
            &mut report,
            text,
            told(alloc, text.as_bytes())?.as_str(),
            wanted,
        )?;
    }
    Ok(report)
}

#[test]
fn places_in_documents(rt: HostRuntime) -> Result<(), Fail> {
    assert_eq!(rt; differing(rt.alloc())?.as_str(), "");
    Ok(())
}
