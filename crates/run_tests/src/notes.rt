use crate::given::{Given, IMAGE, outcome_of, outcome_within};
use stage_run::{Status, exit_of};
use std::alloc::{AllocError, Global};
use std::test::Fail;

/// A document and what its start tells.
const NOTED: [(&str, &str); 23] = [
    ("Item { }", ""),
    (
        "Item { signal hit(int n); onHit: console.log(n); Component.onCompleted: hit(7) }",
        "qml: 7\n",
    ),
    (
        "Item { function f(a) { return a + 1 } x: f(4); Component.onCompleted: console.log(x) }",
        "qml: 5\n",
    ),
    (
        "Item { Component.onCompleted: { var k = 2; k += 3; console.log(k) } }",
        "qml: 5\n",
    ),
    (
        "Item { x: y + 1; y: x + 1; Component.onCompleted: console.log(x, y) }",
        "Main.qml:1:8: Binding loop detected for property \"x\"\nqml: 0 1\n",
    ),
    (
        "Item { x: 2147483647 + 1; Component.onCompleted: console.log(x) }",
        "Main.qml:1:8: evaluation fault: overflow\nqml: 0\n",
    ),
    (
        "Rectangle { property int n: 0; height: 1; width: n; color: \"black\"; onNChanged: n = n + 1; Component.onCompleted: n = 1 }",
        "Main.qml:1:69: handler limit\n",
    ),
    (
        "Item { Component.onCompleted: while (true) ; }",
        "Main.qml:1:8: statement limit\n",
    ),
    (
        "Item { Component.onCompleted: console.log(\"a\" + 1 + true) }",
        "qml: a1true\n",
    ),
    (
        "Item { Component.onCompleted: { console.log(1); nope(); console.log(2) } }",
        "qml: 1\nMain.qml:1:8: evaluation fault: unknown name\n",
    ),
    (
        "Item { id: a; property int n: 1; onNChanged: console.log(n, a.m); property int m: n * 2; Component.onCompleted: n = 4 }",
        "qml: 4 8\n",
    ),
    (
        "Item { readonly property int n: 1; Component.onCompleted: n = 2 }",
        "Main.qml:1:36: evaluation fault: read only\n",
    ),
    (
        "Item { property int n; Component.onCompleted: { n = 3; n = \"a\" } onNChanged: console.log(n) }",
        "qml: 3\nMain.qml:1:24: evaluation fault: wrong kind\n",
    ),
    (
        "Item { property int n: 1; property int m: n; Component.onCompleted: { m = 7; n = 2; console.log(m) } }",
        "qml: 7\n",
    ),
    (
        "Item { Item { Component.onCompleted: console.log(\"child\") } Component.onCompleted: console.log(\"root\") }",
        "qml: root\nqml: child\n",
    ),
    (
        "Item { function twice(n) { for (var i = 0; i < 2; i++) console.log(n) } Component.onCompleted: twice(\"go\") }",
        "qml: go\nqml: go\n",
    ),
    (
        "Item { Component.onCompleted: { const k = 1; k = 2 } }",
        "Main.qml:1:8: evaluation fault: read only\n",
    ),
    // a hidden item hides what is in it
    (
        "Item { visible: false; Item { id: a } Component.onCompleted: console.log(a.visible) }",
        "qml: false\n",
    ),
    // 3 in 10, and 13 in 10: half a pixel is cut off
    (
        "Rectangle { width: 10; Rectangle { id: a; width: 3; anchors.centerIn: parent } Component.onCompleted: console.log(a.x) }",
        "qml: 3\n",
    ),
    (
        "Rectangle { width: 10; Rectangle { id: a; width: 13; anchors.centerIn: parent } Component.onCompleted: console.log(a.x) }",
        "qml: -1\n",
    ),
    // a size that follows a child that follows it
    (
        "Item { width: childrenRect.width; Item { anchors.fill: parent } Component.onCompleted: console.log(width) }",
        "Main.qml:1:8: Binding loop detected for property \"width\"\nqml: 0\n",
    ),
    // anchors that count for nothing
    (
        "Item { Item { anchors.fill: parent; anchors.left: parent.top } }",
        "Main.qml:1:8: anchor target ignored: anchors.left\n",
    ),
    (
        "Item { id: p; Item { id: a; anchors { left: p.left; right: p.right; horizontalCenter: p.left } } Component.onCompleted: { a.anchors.left = undefined; a.anchors.left = p.right } }",
        "Main.qml:1:15: center anchor ignored: anchors.horizontalCenter\nMain.qml:1:15: center anchor ignored: anchors.horizontalCenter\n",
    ),
];

/// The script of each run.
const SCRIPT: (&str, &str) = ("script.txt", "frame");

fn given<'a>(files: &'a [(&'a str, &'a str)]) -> Given<'a> {
    Given {
        words: &["Main.qml", "script.txt"],
        files,
        failing: 0,
        room: IMAGE,
    }
}

fn tells(alloc: Global, document: &str, notes: &str) -> Result<bool, AllocError> {
    let files = [("Main.qml", document), SCRIPT];
    let outcome = outcome_of(alloc, &given(&files))?;
    let is_done = matches!(outcome.status, Status::Done);
    Ok(is_done && outcome.notes.contents() == notes.as_bytes())
}

#[test]
fn what_starts_tell(rt: HostRuntime) -> Result<(), Fail> {
    for (document, notes) in NOTED {
        assert!(rt; tells(rt.alloc(), document, notes)?, "{document}");
    }
    Ok(())
}

/// Whether a run whose notes have room for ten bytes ends with a write fault, before its first frame.
fn stops_at_ten(alloc: Global) -> Result<bool, AllocError> {
    let files = [("Main.qml", "Item { x: y + 1; y: x + 1 }"), SCRIPT];
    let outcome = outcome_within(alloc, &given(&files), 10)?;
    let is_cut = outcome.notes.contents() == "Main.qml:1".as_bytes() && outcome.journal.len() == 0;
    Ok(exit_of(&outcome.status) == 6 && is_cut && outcome.frames.contents().is_empty())
}

#[test]
fn notes_that_are_not_taken_are_a_write_fault(rt: HostRuntime) -> Result<(), Fail> {
    assert!(rt; stops_at_ten(rt.alloc())?);
    Ok(())
}
