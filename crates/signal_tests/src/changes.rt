//! Which handlers run after a write, and in which order.

use crate::worlds::{Step, passes};
use std::test::Fail;

/// What `A.qml` and `Main.qml` are, and what is noted where `Main.qml` starts.
const ROWS: &[(&str, &str, &str)] = &[
    // first values are no changes
    (
        "Item { }",
        "Item { property int a: 1 + 2; width: a; onAChanged: console.log('never'); onWidthChanged: console.log('never') }",
        "",
    ),
    // of an object, in the order of its properties: those of its type first, then those that it declares
    (
        "Item { }",
        "Item { property int b: a * 2; property int a: 1; onAChanged: console.log('a', a, b); onBChanged: console.log('b', b); \
         onHeightChanged: console.log('height', height); height: a; Component.onCompleted: a = 4 }",
        "qml: height 4\nqml: b 8\nqml: a 4 8\n",
    ),
    // object by object
    (
        "Item { }",
        "Item { id: r; property int n: 0; Item { x: r.n; onXChanged: console.log('first', x) } \
         Item { y: r.n + 1; onYChanged: console.log('second', y) } onNChanged: console.log('own'); Component.onCompleted: n = 3 }",
        "qml: own\nqml: first 3\nqml: second 4\n",
    ),
    // once, though a width is set and shown
    (
        "Item { }",
        "Item { width: 1; onWidthChanged: console.log(width); Component.onCompleted: width = 5 }",
        "qml: 5\n",
    ),
    // an equal value is no change, and takes the place of what the slot was bound to
    (
        "Item { }",
        "Item { property int a: 1; property int b: a; onBChanged: console.log('never'); onAChanged: console.log('a'); \
         Component.onCompleted: { b = 1; a = 3; console.log(b) } }",
        "qml: a\nqml: 1\n",
    ),
    // a handler that writes what it handles
    (
        "Item { }",
        "Item { property int n: 0; onNChanged: { console.log(n); if (n < 3) n += 1; console.log('end', n) } Component.onCompleted: n = 1 }",
        "qml: 1\nqml: 2\nqml: 3\nqml: end 3\nqml: end 3\nqml: end 3\n",
    ),
    // after a nested write the outer handlers go on
    (
        "Item { }",
        "Item { property int n: 0; property int m: n; onNChanged: if (n == 1) n = 2; onMChanged: console.log('m', m); \
         Component.onCompleted: { n = 1; console.log('end') } }",
        "qml: m 2\nqml: m 2\nqml: end\n",
    ),
    // also where the value went back
    (
        "Item { }",
        "Item { property int n: 0; property int m: n; onNChanged: n = 0; onMChanged: console.log('m', m); Component.onCompleted: n = 1 }",
        "qml: m 0\nqml: m 0\n",
    ),
    // bindings are settled before any handler runs
    (
        "Item { }",
        "Item { property int a: 0; property int b: a + 1; property int c: b + 1; onAChanged: console.log(a, b, c); Component.onCompleted: a = 5 }",
        "qml: 5 6 7\n",
    ),
    // a signal with the name of a change
    (
        "Item { }",
        "Item { signal xChanged; onXChanged: console.log('x', x); Component.onCompleted: { x = 2; xChanged(); xChanged() } }",
        "qml: x 2\nqml: x 2\nqml: x 2\n",
    ),
    // in preorder
    (
        "Item { }",
        "Item { Component.onCompleted: console.log(1); Item { Component.onCompleted: console.log(2); \
         Item { Component.onCompleted: console.log(3) } } property Item o: Item { Component.onCompleted: console.log(4) } \
         Item { Component.onCompleted: console.log(5) } }",
        "qml: 1\nqml: 2\nqml: 3\nqml: 4\nqml: 5\n",
    ),
    // the inner document's handlers first
    (
        "Item { property int n: 0; signal s(int k); onNChanged: console.log('inner', n); onS: console.log('inner s', k); \
         Component.onCompleted: console.log('A') }",
        "A { onS: console.log('outer s', k); onNChanged: console.log('outer', n); \
         Component.onCompleted: { console.log('Main'); n = 2; s(7) } }",
        "qml: A\nqml: Main\nqml: inner 2\nqml: outer 2\nqml: inner s 7\nqml: outer s 7\n",
    ),
    // a write by the outer document, seen by what the inner one binds
    (
        "Item { property int n: 1; property int m: n * 3; onMChanged: console.log('m', m) }",
        "Item { A { id: a } A { n: a.m; Component.onCompleted: { a.n = 2; console.log(n, m) } } }",
        "qml: m 6\nqml: m 18\nqml: 6 18\n",
    ),
    // what an inner handler did is seen by an outer one
    (
        "Item { property int n: 0; onNChanged: if (n < 5) n = 5 }",
        "A { onNChanged: console.log(n); Component.onCompleted: n = 1 }",
        "qml: 5\nqml: 5\n",
    ),
];

#[test]
fn changes_are_told_in_order(rt: HostRuntime) -> Result<(), Fail> {
    for (first, text, notes) in ROWS {
        assert!(rt;
            passes(rt.alloc(), first, text, &[Step::Notes(notes)])?,
            "{text}"
        );
    }
    Ok(())
}
