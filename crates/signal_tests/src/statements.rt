//! Each form of statement.

use crate::worlds::{NONE, Step, passes};
use std::test::Fail;

/// A document, and what is noted where it starts.
const ROWS: &[(&str, &str)] = &[
    (
        "Item { property int n: 3; Component.onCompleted: { if (n > 2) console.log('more'); else console.log('less'); \
         if (n > 5) console.log('five'); else if (n == 3) console.log('three'); if (n == 4) console.log('four') } }",
        "qml: more\nqml: three\n",
    ),
    // what is true
    (
        "Item { Component.onCompleted: { if ('') console.log(1); if ('a') console.log(2); if (0) console.log(3); \
         if (-1) console.log(4); if (null) console.log(5); if (parent) console.log(6); if (undefined) console.log(7) } }",
        "qml: 2\nqml: 4\nqml: 6\n",
    ),
    (
        "Item { Component.onCompleted: { var i = 3; while (i > 0) { i--; if (i == 1) console.log('one') } console.log(i) } }",
        "qml: one\nqml: 0\n",
    ),
    (
        "Item { Component.onCompleted: { for (var i = 0; i < 3; i++) console.log(i); for (; i < 6; ) i += 2; console.log(i); \
         for (i = 9; i > 7; i -= 2) ; console.log(i); for (;;) { i++; if (i > 20) return } } }",
        "qml: 0\nqml: 1\nqml: 2\nqml: 7\nqml: 7\n",
    ),
    // `return` ends its handler, and not the next one
    (
        "Item { Component.onCompleted: { for (var i = 0; ; i++) { while (true) { if (i == 2) return 1 + 1; i++ } } \
         console.log('never') } Component.onCompleted: console.log('next') }",
        "qml: next\n",
    ),
    (
        "Item { Component.onCompleted: { ; { ; { console.log('in') } } ; } }",
        "qml: in\n",
    ),
    (
        "Item { property int n: 7; Component.onCompleted: { n += 3; n *= 4; n -= 1; n /= 2; console.log(n); n++; n++; n--; \
         console.log(n); n = -n; console.log(n) } }",
        "qml: 19\nqml: 20\nqml: -20\n",
    ),
    (
        "Item { property string s: 'a'; Component.onCompleted: { s += 1; s += true; s++; console.log(s) } }",
        "qml: a1true1\n",
    ),
    // locals; a second declaration takes the place of the first one
    (
        "Item { Component.onCompleted: { var a; console.log(a); const b = 2; let c = b + 1; console.log(b, c); var b = 5; \
         b++; console.log(b) } }",
        "qml: undefined\nqml: 2 3\nqml: 6\n",
    ),
    // a block has no locals of its own, and a local stands before a property
    (
        "Item { id: r; property int k: 1; Component.onCompleted: { { let k = 5 } k += 1; console.log(k, r.k) } \
         Component.onCompleted: console.log(k) }",
        "qml: 6 1\nqml: 1\n",
    ),
    // each handler of a signal has parameters of its own, which it can assign to
    (
        "Item { signal hit(int n); onHit: { n += 1; console.log(n) } onHit: console.log(n); Component.onCompleted: hit(4) }",
        "qml: 5\nqml: 4\n",
    ),
    // arguments as the kinds of the parameters take them
    (
        "Item { signal hit(int n, string s, bool b, color c, var v); onHit: console.log(n, s, b, c, v); \
         Component.onCompleted: { hit(1, 2, false, 'blue', null); hit(-2, true, 1 < 2, '#102030', 'x') } }",
        "qml: 1 2 false #0000ff null\nqml: -2 true true #102030 x\n",
    ),
    // an emission runs at once
    (
        "Item { property int n: 0; signal s; onS: { n += 1; console.log('s', n) } \
         Component.onCompleted: { s(); s(); console.log('after', n) } }",
        "qml: s 1\nqml: s 2\nqml: after 2\n",
    ),
    // a method that is called as a statement has any statements, and locals of its own
    (
        "Item { function f(a) { var s = a * 2; console.log(s) } function g() { f(1); f(2); return 5; f(3) } \
         Component.onCompleted: { var s = 9; g(); console.log(s) } }",
        "qml: 2\nqml: 4\nqml: 9\n",
    ),
    // its parameters are no properties
    (
        "Item { property int n: 1; function f(n) { n = 7; console.log(n) } Component.onCompleted: { f(3); console.log(n) } }",
        "qml: 7\nqml: 1\n",
    ),
    // a method in an expression
    (
        "Item { property int n: 2; function f(a) { return a * n } Component.onCompleted: { n = 5; console.log(f(3) + f(1)) } }",
        "qml: 20\n",
    ),
    // of another object, whose names it has
    (
        "Item { id: r; property int n: 1; function f() { n += 1; console.log(n) } \
         Item { property int n: 50; Component.onCompleted: { r.f(); console.log(n, r.n) } } }",
        "qml: 2\nqml: 50 2\n",
    ),
    // the value of an expression that stands alone is dropped
    (
        "Item { property int n: 2; Component.onCompleted: { 1 + 2; n; Math.max(n, 1); console.log('on') } }",
        "qml: on\n",
    ),
    // a call in parentheses
    (
        "Item { signal s; onS: console.log('s'); Component.onCompleted: { (s()); (console.log('log')) } }",
        "qml: s\nqml: log\n",
    ),
];

#[test]
fn statements_run(rt: HostRuntime) -> Result<(), Fail> {
    for (text, notes) in ROWS {
        assert!(rt;
            passes(rt.alloc(), NONE, text, &[Step::Notes(notes)])?,
            "{text}"
        );
    }
    Ok(())
}
