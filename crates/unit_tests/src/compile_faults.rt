//! The first faults of what documents declare, and documents without one.

use crate::documents::{compiled, known_as_a};
use crate::report::{note, told_fault};
use qml_ast::DocFault;
use qml_types::Known;
use std::alloc::{AllocError, Global};
use std::test::Fail;

/// The type `A` that a text declares, and no type where there is no text.
fn known_types(alloc: Global, text: &str) -> Result<Known, DocFault> {
    let none = Known::new(alloc);
    if text.is_empty() {
        return Ok(none);
    }
    known_as_a(alloc, text, &none)
}

/// The fault of a text, where the first one declares `A`.
fn judged(alloc: Global, first: &str, text: &str) -> Result<(), DocFault> {
    let known = known_types(alloc, first)?;
    let _component = compiled(alloc, text, &known)?;
    Ok(())
}

/// `ok` where a text has no fault, and else its first.
fn answer(alloc: Global, first: &str, text: &str) -> Result<String, AllocError> {
    match judged(alloc, first, text) {
        Ok(()) => String::from_str(alloc, "ok"),
        Err(fault) => told_fault(alloc, fault),
    }
}

const TYPES_AND_PATHS: &[(&str, &str)] = &[
    // The types of objects, of properties and of parameters.
    ("Foo { }", "UnknownType 1:1"),
    ("Item { Foo { } }", "UnknownType 1:8"),
    ("Item { x: Foo { } }", "UnknownType 1:11"),
    ("Item { property foo a }", "UnknownType 1:17"),
    ("Item { property Foo a: 1 }", "UnknownType 1:17"),
    ("Item { readonly property Foo a }", "UnknownType 1:26"),
    ("Item { signal s(int a, Foo b) }", "UnknownType 1:24"),
    ("Item { signal s(alias a) }", "UnknownType 1:17"),
    ("Item { A { } }", "UnknownType 1:8"),
    (
        "Item { property Timer a; property Component b; property QtObject c; signal s(real a, url b, Row c) }",
        "ok",
    ),
    // What is unknown has no further faults.
    ("Item { a: 1; property Foo a }", "UnknownType 1:23"),
    (
        "Item { a: \"x\"; property foo a; b: 1 }",
        "UnknownType 1:25",
    ),
    (
        "Foo { foo: 1; a.b: 'a'; onFoo: { } Component.onFoo: { } property int x; x: 1 }",
        "UnknownType 1:1",
    ),
    // Paths of initialisers.
    ("Item { foo: 1 }", "UnknownProperty 1:8"),
    ("Item { if: 1 }", "UnknownProperty 1:8"),
    ("Item { anchors: 1 }", "UnknownProperty 1:8"),
    ("Item { anchors.foo: 1 }", "UnknownProperty 1:8"),
    (
        "Item { anchors { fill: parent; foo: 1 } }",
        "UnknownProperty 1:32",
    ),
    ("Item { property int a; a.b: 1 }", "UnknownProperty 1:24"),
    ("Item { id: a; a.b: 1 }", "UnknownProperty 1:15"),
    ("Item { id: a; a: 1 }", "UnknownProperty 1:15"),
    ("Item { signal a; a: 1 }", "UnknownProperty 1:18"),
    ("Item { function a() { } a: 1 }", "UnknownProperty 1:25"),
    ("Timer { x: 1 }", "UnknownProperty 1:9"),
    ("MouseArea { clicked: 1 }", "UnknownProperty 1:13"),
    ("Item { border { width: 1 } }", "UnknownProperty 1:17"),
    ("QtObject { states.x: 1 }", "UnknownProperty 1:12"),
    (
        "Rectangle { border { width: 1; color: \"red\" } border.x: 1 }",
        "UnknownProperty 1:47",
    ),
    (
        "Rectangle { border { width: 1; color: \"red\" } anchors { margins: 1 } childrenRect { } }",
        "ok",
    ),
    ("Item { foo { } }", "ok"),
    ("QtObject { objectName: \"a\" }", "ok"),
];

const HANDLERS: &[(&str, &str)] = &[
    // Handlers.
    ("Item { onFoo: { } }", "UnknownProperty 1:8"),
    ("Item { signal foo; onFoo: { } }", "ok"),
    ("Item { signal Foo; onFoo: { } onFoo: { } }", "ok"),
    ("Item { onFoo: { } signal foo(int a) }", "ok"),
    ("Item { signal _foo; on_foo: 1 }", "UnknownProperty 1:21"),
    (
        "Item { function foo() { } onFoo: { } }",
        "UnknownProperty 1:27",
    ),
    (
        "Item { property int foo; onFoo: { } }",
        "UnknownProperty 1:26",
    ),
    ("Timer { onStart: { } }", "UnknownProperty 1:9"),
    ("Timer { onTriggered: { } onRunningChanged: { } }", "ok"),
    (
        "MouseArea { onPressed: { } onReleased: { } onClicked: { } onPressedChanged: { } onMouseXChanged: { } }",
        "ok",
    ),
    ("Item { onClicked: { } }", "UnknownProperty 1:8"),
    (
        "Loader { onLoaded: { } onItemChanged: { } onSourceComponentChanged: { } }",
        "ok",
    ),
    (
        "Item { onXChanged: { } onParentChanged: { } onLeftChanged: { } onObjectNameChanged: { } }",
        "ok",
    ),
    ("Item { onAnchorsChanged: { } }", "UnknownProperty 1:8"),
    (
        "Rectangle { onColorChanged: { } onBorderChanged: { } }",
        "UnknownProperty 1:33",
    ),
    ("Item { property int a; onAChanged: { } }", "ok"),
    ("Item { property int A; onAChanged: { } }", "ok"),
    ("Item { signal xChanged; onXChanged: { } }", "ok"),
    ("Item { onAChanged: { } }", "UnknownProperty 1:8"),
    (
        "Item { property int a; onAChange: { } }",
        "UnknownProperty 1:24",
    ),
    ("Item { onChanged: { } }", "UnknownProperty 1:8"),
    (
        "Item { Item { property int a } onAChanged: { } }",
        "UnknownProperty 1:32",
    ),
    (
        "QtObject { Component.onCompleted: { } Component.onDestruction: { } Component.onCompleted: { } }",
        "ok",
    ),
    ("Item { Component.onFoo: { } }", "UnknownProperty 1:8"),
    ("Item { Component.onXChanged: { } }", "UnknownProperty 1:8"),
    ("Item { Component.completed: 1 }", "UnknownProperty 1:8"),
    // Components have one child.
    ("Component { }", "UnknownProperty 1:1"),
    ("Item { Component { foo: 1 } }", "UnknownProperty 1:8"),
    (
        "Item { Component { property Item a: Item { } } }",
        "UnknownProperty 1:8",
    ),
    (
        "Item { property Component a: Component { } }",
        "UnknownProperty 1:30",
    ),
    ("Component { Item { } Item { } }", "DuplicateName 1:22"),
    (
        "Component { Item { } Item { } Item { } }",
        "DuplicateName 1:22",
    ),
    (
        "Component { id: a; property int b: 1; Component.onCompleted: { } Item { } onBChanged: { } }",
        "ok",
    ),
    ("Component { Item { foo: 1 } }", "UnknownProperty 1:20"),
    ("Component { x: 1; Item { } }", "UnknownProperty 1:13"),
];

const IDS: &[(&str, &str)] = &[
    // Ids.
    ("Item { id: A }", "BadId 1:12"),
    ("Item { Item { id: B } id: a }", "BadId 1:19"),
    ("Item { id: a; id: B }", "BadId 1:19"),
    (
        "Item { id: a; Item { id: Box } Item { id: a } }",
        "BadId 1:26",
    ),
    ("Item { id: _A; Item { id: true } }", "ok"),
    ("Item { id: a; id: b }", "DuplicateId 1:19"),
    ("Item { id: a; Item { id: a } }", "DuplicateId 1:26"),
    (
        "Item { Item { id: a; Item { } } Item { Item { id: a } } }",
        "DuplicateId 1:51",
    ),
    (
        "Item { property Item b: Item { id: a } id: a }",
        "DuplicateId 1:44",
    ),
    ("Item { id: a; Component { Item { id: a } } }", "ok"),
    ("Item { id: a; Component { id: b; Item { id: b } } }", "ok"),
    (
        "Item { id: a; Component { id: a; Item { } } }",
        "DuplicateId 1:31",
    ),
    (
        "Item { id: a; Component { Item { id: b; Item { id: b } } } }",
        "DuplicateId 1:52",
    ),
    ("Item { id: a; property Component b: Item { id: a } }", "ok"),
    ("Loader { id: a; sourceComponent: Item { id: a } }", "ok"),
    (
        "Loader { sourceComponent: Item { id: a; Item { id: a } } }",
        "DuplicateId 1:52",
    ),
    (
        "Loader { id: a; sourceComponent: Component { id: a; Item { } } }",
        "DuplicateId 1:50",
    ),
    (
        "Item { id: x; property int y2; Item { id: y2 } function f(x) { } }",
        "ok",
    ),
    // Names that the object has.
    (
        "Item { property int a; property bool a }",
        "DuplicateName 1:38",
    ),
    ("Item { signal a; signal a }", "DuplicateName 1:25"),
    (
        "Item { function a() { } function a() { } }",
        "DuplicateName 1:34",
    ),
    ("Item { property int a; signal a }", "DuplicateName 1:31"),
    (
        "Item { property int a; function a() { } }",
        "DuplicateName 1:33",
    ),
    ("Item { function a() { } signal a }", "DuplicateName 1:32"),
    (
        "Item { signal s(int a, int b, int a) }",
        "DuplicateName 1:35",
    ),
    ("Item { function f(a, a) { } }", "DuplicateName 1:22"),
    (
        "Item { signal s(int s, int a); property int a; function f(f, a) { } Item { property int a } }",
        "ok",
    ),
    // Names that the type has.
    ("Item { property int x }", "DuplicateName 1:21"),
    ("Item { signal x }", "DuplicateName 1:15"),
    ("Item { function x() { } }", "DuplicateName 1:17"),
    ("Item { property int left }", "DuplicateName 1:21"),
    ("Item { property int anchors }", "DuplicateName 1:21"),
    ("Item { property int childrenRect }", "DuplicateName 1:21"),
    ("Rectangle { property int border }", "DuplicateName 1:26"),
    ("QtObject { signal objectName }", "DuplicateName 1:19"),
    ("MouseArea { signal clicked }", "DuplicateName 1:20"),
    ("Timer { property int start }", "DuplicateName 1:22"),
    ("Timer { function stop() { } }", "DuplicateName 1:18"),
    (
        "Item { property int border; property int start; signal clicked; signal xChanged; property var states; property int Math }",
        "ok",
    ),
];

const INITIALISED: &[(&str, &str)] = &[
    // Paths that are initialised twice.
    ("Item { x: 1; x: 2 }", "DuplicateName 1:14"),
    ("Item { x: 1; y: 2; x: 3; y: 4 }", "DuplicateName 1:20"),
    (
        "Item { anchors.margins: 1; anchors { margins: 2 } }",
        "DuplicateName 1:38",
    ),
    (
        "Item { anchors { margins: 1 } anchors { margins: 1 } }",
        "DuplicateName 1:41",
    ),
    (
        "Item { anchors.fill: parent; anchors { margins: 1; fill: parent } }",
        "DuplicateName 1:52",
    ),
    ("Item { property int a: 1; a: 2 }", "DuplicateName 1:27"),
    ("Item { a: 2; property int a: 1 }", "DuplicateName 1:27"),
    (
        "Item { property int a; a: 2; Item { property int a: 1 } }",
        "ok",
    ),
    ("Item { a: 2; property int a }", "ok"),
    // Slots that documents do not initialise.
    ("Item { parent: null }", "ReadOnly 1:8"),
    ("Item { left: undefined }", "ReadOnly 1:8"),
    ("Item { childrenRect.x: 1 }", "ReadOnly 1:8"),
    ("Item { childrenRect { width: \"a\" } }", "ReadOnly 1:23"),
    ("Row { implicitWidth: 1 }", "ReadOnly 1:7"),
    ("Column { implicitHeight: a }", "ReadOnly 1:10"),
    ("Loader { implicitWidth: 1 }", "ReadOnly 1:10"),
    ("Loader { status: 1 }", "ReadOnly 1:10"),
    ("MouseArea { pressed: true }", "ReadOnly 1:13"),
    ("Item { readonly property int a; a: 1 }", "ReadOnly 1:33"),
    ("Item { a: 1; readonly property int a: 1 }", "ReadOnly 1:8"),
    (
        "Item { readonly property int a: 1; a: 2 }",
        "DuplicateName 1:36",
    ),
    (
        "Item { readonly property int a: 1; readonly property Item b; implicitWidth: 1 }",
        "ok",
    ),
    // What literals are and where they stand.
    ("Item { x: \"a\" }", "WrongLiteral 1:11"),
    ("Item { x: ('a') }", "WrongLiteral 1:12"),
    (
        "Item { x: -1; visible: -1; y: (('a')) }",
        "WrongLiteral 1:33",
    ),
    ("Item { x: Item { } }", "WrongLiteral 1:11"),
    ("Item { anchors { margins: \"a\" } }", "WrongLiteral 1:27"),
    ("Item { anchors.left: 3 }", "WrongLiteral 1:22"),
    ("Item { anchors.fill: 3 }", "WrongLiteral 1:22"),
    (
        "Item { anchors.left: undefined; anchors.fill: null; anchors.centerIn: undefined }",
        "ok",
    ),
    (
        "Item { visible: -1; x: +true; y: !1; z: true ? 1 : 2; width: 'a' + 1; height: a }",
        "ok",
    ),
    ("Rectangle { color: \"nocolour\" }", "ok"),
    ("Loader { source: null }", "WrongLiteral 1:18"),
    ("Loader { sourceComponent: undefined }", "WrongLiteral 1:27"),
    ("Loader { source: 1; sourceComponent: null }", "ok"),
    (
        "Item { property var v: Item { } property Item i: Item { } x: Item { } }",
        "WrongLiteral 1:62",
    ),
    (
        "Item { property int a: Item { foo: 1 } }",
        "WrongLiteral 1:24",
    ),
];

const LONGER: &[(&str, &str)] = &[
    // Longer texts.
    (
        "\nItem { anchors.fill: parent; anchors { margins: 1; fill: parent } }",
        "DuplicateName 2:52",
    ),
    (
        "\nItem { a: \"x\"; property foo a; b: 1 }",
        "UnknownType 2:25",
    ),
    (
        "\nItem { property var v: Item { } property Item i: Item { } x: Item { } }",
        "WrongLiteral 2:62",
    ),
    (
        "\nItem { Item { childrenRect.width: \"a\" } x: \"a\" }",
        "ReadOnly 2:15",
    ),
    (
        "\nItem { x: -1; visible: -1; y: (('a')) }",
        "WrongLiteral 2:33",
    ),
    ("Item { width: null }", "WrongLiteral 1:15"),
    ("Item { y: true; B { } }", "WrongLiteral 1:11"),
    (
        "Rectangle {\n    parent: null\n    id: o0\n    property int e: 22; property bool on: false\n    width: 32; height: 44; color: \"lime\"\n    Rectangle {\n        id: o1\n        property var a: 21; x: 6; y: 18; height: 17; color: \"navy\"\n        Item { id: o2; property int b: 37; property real d: 25; x: 11; y: 16; width: 6 }\n        Rectangle { id: o4; x: 16; y: 0; width: 18; height: 18; color: \"black\" }\n    }\n    Item { id: o3; property int e: 25; x: 1; y: 19 }\n}\n",
        "ReadOnly 2:5",
    ),
    (
        "Rectangle {\n    color: 5\n    id: o0\n    property int c: 17; property bool on: true\n    property string name: \"red\"\n    color: \"red\"\n    Rectangle { id: o1; x: 6; width: 6; height: 7; color: \"#f0a\" }\n}\n",
        "WrongLiteral 2:12",
    ),
    (
        "Item {\n    id: o0; property int e\n    property var name: \"é\"; y: 13; width: 52\n    Item {\n    signal s(int n, int n)\n        id: o1\n        property real d: 28\n    }\n    Item { id: o4; property int d: 38 }\n}\n",
        "DuplicateName 5:25",
    ),
    // Of two faults the first by its place.
    ("Item { Foo { } foo: 1 }", "UnknownType 1:8"),
    ("Item { foo: 1; Foo { } }", "UnknownProperty 1:8"),
    ("Item { foo: 1; id: A }", "UnknownProperty 1:8"),
    ("Item { id: A; foo: 1 }", "BadId 1:12"),
    (
        "Item { id: a; Item { id: A } Item { id: a } }",
        "BadId 1:26",
    ),
    (
        "Item { id: a; Item { id: a } Item { id: A } }",
        "DuplicateId 1:26",
    ),
    (
        "Item { id: a; Item { id: a } property int x }",
        "DuplicateId 1:26",
    ),
    (
        "Item { id: a; property int x; Item { id: a } }",
        "DuplicateName 1:28",
    ),
    ("Item { property int x; y: 'a' }", "DuplicateName 1:21"),
    ("Item { y: 'a'; property int x }", "WrongLiteral 1:11"),
    ("Item { x: 'a'; parent: null }", "WrongLiteral 1:11"),
    ("Item { parent: null; x: 'a' }", "ReadOnly 1:8"),
    ("Item { parent: 1 }", "ReadOnly 1:8"),
    (
        "Item {\n                foo: 1\nid: A }",
        "UnknownProperty 2:17",
    ),
    ("Item {\n id: A\nfoo: 1 }", "BadId 2:6"),
    (
        "Item { Item { Item { Foo { } } } foo: 1 }",
        "UnknownType 1:22",
    ),
    (
        "Item { Item { x: 1; x: 2; foo: 1 } foo: 1 }",
        "DuplicateName 1:21",
    ),
    // Of two at one place the one that is named first.
    ("Item { property int a: Foo { } }", "UnknownType 1:24"),
    ("Component { Item { } Foo { } }", "UnknownType 1:22"),
    (
        "Component { Item { } Component { } }",
        "UnknownProperty 1:22",
    ),
    ("Item { x: Component { } }", "UnknownProperty 1:11"),
];

const WITH_A: &[(&str, &str, &str)] = &[
    // Objects of a document's type.
    (
        "Item { property int n; signal s(int a); function f() { } readonly property int r; Item { property int k } }",
        "A { n: 1; onS: { } onNChanged: { } onXChanged: { } x: 1; Component.onCompleted: { } }",
        "ok",
    ),
    (
        "Item { property int n; signal s(int a); function f() { } readonly property int r; Item { property int k } }",
        "A { n: 'a' }",
        "WrongLiteral 1:8",
    ),
    (
        "Item { property int n; signal s(int a); function f() { } readonly property int r; Item { property int k } }",
        "A { property int n }",
        "DuplicateName 1:18",
    ),
    (
        "Item { property int n; signal s(int a); function f() { } readonly property int r; Item { property int k } }",
        "A { property int s }",
        "DuplicateName 1:18",
    ),
    (
        "Item { property int n; signal s(int a); function f() { } readonly property int r; Item { property int k } }",
        "A { signal s }",
        "DuplicateName 1:12",
    ),
    (
        "Item { property int n; signal s(int a); function f() { } readonly property int r; Item { property int k } }",
        "A { function f() { } }",
        "DuplicateName 1:14",
    ),
    (
        "Item { property int n; signal s(int a); function f() { } readonly property int r; Item { property int k } }",
        "A { signal x }",
        "DuplicateName 1:12",
    ),
    (
        "Item { property int n; signal s(int a); function f() { } readonly property int r; Item { property int k } }",
        "A { signal r }",
        "DuplicateName 1:12",
    ),
    (
        "Item { property int n; signal s(int a); function f() { } readonly property int r; Item { property int k } }",
        "A { n: 1; x: 1; n: 2 }",
        "DuplicateName 1:17",
    ),
    (
        "Item { property int n; signal s(int a); function f() { } readonly property int r; Item { property int k } }",
        "A { r: 1 }",
        "ReadOnly 1:5",
    ),
    (
        "Item { property int n; signal s(int a); function f() { } readonly property int r; Item { property int k } }",
        "A { k: 1 }",
        "UnknownProperty 1:5",
    ),
    (
        "Item { property int n; signal s(int a); function f() { } readonly property int r; Item { property int k } }",
        "A { n.x: 1 }",
        "UnknownProperty 1:5",
    ),
    (
        "Item { property int n; signal s(int a); function f() { } readonly property int r; Item { property int k } }",
        "A { onF: { } }",
        "UnknownProperty 1:5",
    ),
    (
        "Item { property int n; signal s(int a); function f() { } readonly property int r; Item { property int k } }",
        "A { onKChanged: { } }",
        "UnknownProperty 1:5",
    ),
    (
        "Item { property int n; signal s(int a); function f() { } readonly property int r; Item { property int k } }",
        "A { property int k: 1; signal t; onT: { } Item { property int n } }",
        "ok",
    ),
    (
        "Item { property int n; signal s(int a); function f() { } readonly property int r; Item { property int k } }",
        "Item { property A a: A { } property A b: null; property A c: Item { } signal t(A a); A { } }",
        "ok",
    ),
    (
        "Item { property int n; signal s(int a); function f() { } readonly property int r; Item { property int k } }",
        "Item { property A a: 1 }",
        "WrongLiteral 1:22",
    ),
    (
        "Item { property int n; signal s(int a); function f() { } readonly property int r; Item { property int k } }",
        "Item { id: a; A { id: a } }",
        "DuplicateId 1:23",
    ),
    (
        "Item { property int n; signal s(int a); function f() { } readonly property int r; Item { property int k } }",
        "Item { A { } B { } }",
        "UnknownType 1:14",
    ),
    // Its ids are its own.
    (
        "Item { id: m; signal n }",
        "A { id: m; property int m; Item { id: n } }",
        "ok",
    ),
    (
        "Item { id: m; signal n }",
        "A { property int m; property int n }",
        "DuplicateName 1:34",
    ),
    // A declared name may be any.
    (
        "Item { property int states; signal Foo; property Component c; property string t }",
        "A { states: 1; onFoo: { } c: Item { id: a } id: a; t: true }",
        "ok",
    ),
    (
        "Item { property int states; signal Foo; property Component c; property string t }",
        "A { c: undefined }",
        "WrongLiteral 1:8",
    ),
    (
        "Item { property int states; signal Foo; property Component c; property string t }",
        "A { property int Foo }",
        "DuplicateName 1:18",
    ),
    // Types that stand on Component.
    ("Component { Item { } }", "A { }", "ok"),
    (
        "Component { Item { } }",
        "Item { A { id: a; property int b } A { } property Component c: A { } }",
        "ok",
    ),
    (
        "Component { Item { } }",
        "A { Item { } }",
        "DuplicateName 1:5",
    ),
    (
        "Component { Item { } }",
        "Item { A { Item { } } }",
        "DuplicateName 1:12",
    ),
    (
        "Component { Item { } }",
        "Item { A { Item { } Item { } } }",
        "DuplicateName 1:12",
    ),
    (
        "Component { Item { } }",
        "Item { id: a; property Component c: A { id: a } }",
        "DuplicateId 1:45",
    ),
    (
        "Component { Item { } }",
        "Item { id: a; property A c: Item { id: a } }",
        "DuplicateId 1:40",
    ),
    (
        "Component { Item { } }",
        "Item { id: a; A { Item { id: a } } }",
        "DuplicateName 1:19",
    ),
    // Types that stand on other types.
    (
        "Rectangle { border.width: 2 }",
        "A { border.width: 3; color: 'x'; border { color: \"red\" } }",
        "ok",
    ),
    (
        "Rectangle { border.width: 2 }",
        "A { property int border }",
        "DuplicateName 1:18",
    ),
    (
        "Rectangle { border.width: 2 }",
        "A { signal color }",
        "DuplicateName 1:12",
    ),
    (
        "Rectangle { border.width: 2 }",
        "A { border.width: 'a' }",
        "WrongLiteral 1:19",
    ),
];

/// A property of each kind, an anchor that takes a line and one that takes an object: with each literal and with an
/// object.
const LITERALS: &[(&str, &str)] = &[
    ("Item { property int a: 1 }", "ok"),
    ("Item { property int a: 'a' }", "WrongLiteral 1:24"),
    ("Item { property int a: true }", "WrongLiteral 1:24"),
    ("Item { property int a: false }", "WrongLiteral 1:24"),
    ("Item { property int a: null }", "WrongLiteral 1:24"),
    ("Item { property int a: undefined }", "WrongLiteral 1:24"),
    ("Item { property int a: Item { } }", "WrongLiteral 1:24"),
    ("Item { property real a: 1 }", "ok"),
    ("Item { property real a: 'a' }", "WrongLiteral 1:25"),
    ("Item { property real a: true }", "WrongLiteral 1:25"),
    ("Item { property real a: false }", "WrongLiteral 1:25"),
    ("Item { property real a: null }", "WrongLiteral 1:25"),
    ("Item { property real a: undefined }", "WrongLiteral 1:25"),
    ("Item { property real a: Item { } }", "WrongLiteral 1:25"),
    ("Item { property double a: 1 }", "ok"),
    ("Item { property double a: 'a' }", "WrongLiteral 1:27"),
    ("Item { property double a: true }", "WrongLiteral 1:27"),
    ("Item { property double a: false }", "WrongLiteral 1:27"),
    ("Item { property double a: null }", "WrongLiteral 1:27"),
    ("Item { property double a: undefined }", "WrongLiteral 1:27"),
    ("Item { property double a: Item { } }", "WrongLiteral 1:27"),
    ("Item { property bool a: 1 }", "WrongLiteral 1:25"),
    ("Item { property bool a: 'a' }", "WrongLiteral 1:25"),
    ("Item { property bool a: true }", "ok"),
    ("Item { property bool a: false }", "ok"),
    ("Item { property bool a: null }", "WrongLiteral 1:25"),
    ("Item { property bool a: undefined }", "WrongLiteral 1:25"),
    ("Item { property bool a: Item { } }", "WrongLiteral 1:25"),
    ("Item { property string a: 1 }", "ok"),
    ("Item { property string a: 'a' }", "ok"),
    ("Item { property string a: true }", "ok"),
    ("Item { property string a: false }", "ok"),
    ("Item { property string a: null }", "WrongLiteral 1:27"),
    ("Item { property string a: undefined }", "WrongLiteral 1:27"),
    ("Item { property string a: Item { } }", "WrongLiteral 1:27"),
    ("Item { property url a: 1 }", "ok"),
    ("Item { property url a: 'a' }", "ok"),
    ("Item { property url a: true }", "ok"),
    ("Item { property url a: false }", "ok"),
    ("Item { property url a: null }", "WrongLiteral 1:24"),
    ("Item { property url a: undefined }", "WrongLiteral 1:24"),
    ("Item { property url a: Item { } }", "WrongLiteral 1:24"),
    ("Item { property color a: 1 }", "WrongLiteral 1:26"),
    ("Item { property color a: 'a' }", "ok"),
    ("Item { property color a: true }", "WrongLiteral 1:26"),
    ("Item { property color a: false }", "WrongLiteral 1:26"),
    ("Item { property color a: null }", "WrongLiteral 1:26"),
    ("Item { property color a: undefined }", "WrongLiteral 1:26"),
    ("Item { property color a: Item { } }", "WrongLiteral 1:26"),
    ("Item { property var a: 1 }", "ok"),
    ("Item { property var a: 'a' }", "ok"),
    ("Item { property var a: true }", "ok"),
    ("Item { property var a: false }", "ok"),
    ("Item { property var a: null }", "ok"),
    ("Item { property var a: undefined }", "ok"),
    ("Item { property var a: Item { } }", "ok"),
    ("Item { property variant a: 1 }", "ok"),
    ("Item { property variant a: 'a' }", "ok"),
    ("Item { property variant a: true }", "ok"),
    ("Item { property variant a: false }", "ok"),
    ("Item { property variant a: null }", "ok"),
    ("Item { property variant a: undefined }", "ok"),
    ("Item { property variant a: Item { } }", "ok"),
    ("Item { property Item a: 1 }", "WrongLiteral 1:25"),
    ("Item { property Item a: 'a' }", "WrongLiteral 1:25"),
    ("Item { property Item a: true }", "WrongLiteral 1:25"),
    ("Item { property Item a: false }", "WrongLiteral 1:25"),
    ("Item { property Item a: null }", "ok"),
    ("Item { property Item a: undefined }", "ok"),
    ("Item { property Item a: Item { } }", "ok"),
    ("Item { property Timer a: 1 }", "WrongLiteral 1:26"),
    ("Item { property Timer a: 'a' }", "WrongLiteral 1:26"),
    ("Item { property Timer a: true }", "WrongLiteral 1:26"),
    ("Item { property Timer a: false }", "WrongLiteral 1:26"),
    ("Item { property Timer a: null }", "ok"),
    ("Item { property Timer a: undefined }", "ok"),
    ("Item { property Timer a: Item { } }", "ok"),
    ("Item { property Component a: 1 }", "WrongLiteral 1:30"),
    ("Item { property Component a: 'a' }", "WrongLiteral 1:30"),
    ("Item { property Component a: true }", "WrongLiteral 1:30"),
    ("Item { property Component a: false }", "WrongLiteral 1:30"),
    ("Item { property Component a: null }", "ok"),
    (
        "Item { property Component a: undefined }",
        "WrongLiteral 1:30",
    ),
    ("Item { property Component a: Item { } }", "ok"),
    // a line, and an object
    ("Item { anchors.top: 1 }", "WrongLiteral 1:21"),
    ("Item { anchors.top: 'a' }", "WrongLiteral 1:21"),
    ("Item { anchors.top: true }", "WrongLiteral 1:21"),
    ("Item { anchors.top: false }", "WrongLiteral 1:21"),
    ("Item { anchors.top: null }", "WrongLiteral 1:21"),
    ("Item { anchors.top: undefined }", "ok"),
    ("Item { anchors.top: Item { } }", "WrongLiteral 1:21"),
    ("Item { anchors.fill: 1 }", "WrongLiteral 1:22"),
    ("Item { anchors.fill: 'a' }", "WrongLiteral 1:22"),
    ("Item { anchors.fill: true }", "WrongLiteral 1:22"),
    ("Item { anchors.fill: false }", "WrongLiteral 1:22"),
    ("Item { anchors.fill: null }", "ok"),
    ("Item { anchors.fill: undefined }", "ok"),
    ("Item { anchors.fill: Item { } }", "ok"),
];

fn differing(alloc: Global, rows: &[(&str, &str)]) -> Result<String, AllocError> {
    let mut report = String::new(alloc);
    for (text, wanted) in rows {
        note(&mut report, text, answer(alloc, "", text)?.as_str(), wanted)?;
    }
    Ok(report)
}

#[test]
fn types_and_paths(rt: HostRuntime) -> Result<(), Fail> {
    assert_eq!(rt; differing(rt.alloc(), TYPES_AND_PATHS)?.as_str(), "");
    Ok(())
}

#[test]
fn handlers_and_components(rt: HostRuntime) -> Result<(), Fail> {
    assert_eq!(rt; differing(rt.alloc(), HANDLERS)?.as_str(), "");
    Ok(())
}

#[test]
fn ids_and_names(rt: HostRuntime) -> Result<(), Fail> {
    assert_eq!(rt; differing(rt.alloc(), IDS)?.as_str(), "");
    Ok(())
}

#[test]
fn initialisers(rt: HostRuntime) -> Result<(), Fail> {
    assert_eq!(rt; differing(rt.alloc(), INITIALISED)?.as_str(), "");
    Ok(())
}

#[test]
fn longer_documents_and_first_faults(rt: HostRuntime) -> Result<(), Fail> {
    assert_eq!(rt; differing(rt.alloc(), LONGER)?.as_str(), "");
    Ok(())
}

#[test]
fn kinds_and_literals(rt: HostRuntime) -> Result<(), Fail> {
    assert_eq!(rt; differing(rt.alloc(), LITERALS)?.as_str(), "");
    Ok(())
}

fn differing_with_a(alloc: Global) -> Result<String, AllocError> {
    let mut report = String::new(alloc);
    for (first, text, wanted) in WITH_A {
        note(
            &mut report,
            text,
            answer(alloc, first, text)?.as_str(),
            wanted,
        )?;
    }
    Ok(report)
}

#[test]
fn documents_of_a_documents_type(rt: HostRuntime) -> Result<(), Fail> {
    assert_eq!(rt; differing_with_a(rt.alloc())?.as_str(), "");
    Ok(())
}
