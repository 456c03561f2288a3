//! How far handlers may go, and what is dropped then.

use crate::worlds::{FIRST, NONE, Step, passes};
use signals::{MOST_STATEMENTS, Ran};
use std::test::Fail;

/// A document, what is noted where it starts, how many statements are left then, and whether handlers are dropped.
const ROWS: &[(&str, &str, u32, bool)] = &[
    ("Item { Component.onCompleted: ; }", "", 99_999, false),
    ("Item { Component.onCompleted: { ; ; } }", "", 99_997, false),
    (
        "Item { Component.onCompleted: for (var i = 0; i < 2; i++) ; }",
        "",
        99_994,
        false,
    ),
    (
        "Item { Component.onCompleted: { for (var i = 0; i < 49998; i++) ; ; } }",
        "",
        0,
        false,
    ),
    (
        "Item { Component.onCompleted: { for (var i = 0; i < 49998; i++) ; ; ; } }",
        "Main.qml:1:8: statement limit\n",
        0,
        true,
    ),
    (
        "Item { function f(n) { if (n > 1) f(n - 1) } Component.onCompleted: f(63) }",
        "",
        99_874,
        false,
    ),
    (
        "Item { function f(n) { if (n > 1) f(n - 1) } Component.onCompleted: f(64) }",
        "Main.qml:1:46: handler limit\n",
        99_873,
        true,
    ),
    (
        "Item { signal s; onS: s(); Component.onCompleted: { s(); console.log('never') } Item { Component.onCompleted: console.log('dropped') } }",
        "Main.qml:1:18: handler limit\n",
        99_935,
        true,
    ),
];

#[test]
fn limits_are_met_at_both_sides(rt: HostRuntime) -> Result<(), Fail> {
    for (text, notes, left, dropped) in ROWS {
        let steps = [Step::Notes(notes), Step::Left(*left, *dropped)];
        assert!(rt; passes(rt.alloc(), NONE, text, &steps)?, "{text}");
    }
    Ok(())
}

/// A document, and the steps of two moves, in the first of which a limit is met.
const MOVES: &[(&str, &[Step])] = &[
    // no handler runs until the second begins
    (
        "Item { signal s; onS: console.log('s'); Component.onCompleted: while (true) ; }",
        &[
            Step::Emit(0, 1, &[], Ran::Ended),
            Step::Notes("Main.qml:1:41: statement limit\n"),
            Step::BeginMove,
            Step::Left(MOST_STATEMENTS, false),
            Step::Emit(0, 1, &[], Ran::Ended),
            Step::Notes("qml: s\n"),
        ],
    ),
    // a write settles nevertheless
    (
        "Item { property int n: 0; property int m: n * 2; onMChanged: while (true) ; onNChanged: console.log(n, m) }",
        &[
            Step::Write(FIRST, 1, Ran::Budget),
            Step::Notes("qml: 1 2\nMain.qml:1:50: statement limit\n"),
            Step::Write(FIRST, 2, Ran::Ended),
            Step::Notes(""),
            Step::Holds(FIRST, 2, false),
            Step::BeginMove,
            Step::Write(FIRST, 2, Ran::Ended),
            Step::Left(MOST_STATEMENTS, false),
        ],
    ),
];

#[test]
fn a_move_begins_anew(rt: HostRuntime) -> Result<(), Fail> {
    for (text, steps) in MOVES {
        assert!(rt; passes(rt.alloc(), NONE, text, steps)?, "{text}");
    }
    Ok(())
}

/// A document, how often its first signal is emitted, how the last emission ends, what is noted in all, how many
/// statements are left, and whether handlers are dropped.
const EMITTED: &[(&str, u32, Ran, &str, u32, bool)] = &[
    // 64 handlers in each other, and one more
    (
        "Item { signal s; property int d: 0; onS: { d += 1; if (d < 64) s() } }",
        1,
        Ran::Ended,
        "",
        99_745,
        false,
    ),
    (
        "Item { signal s; property int d: 0; onS: { d += 1; if (d < 65) s() } }",
        1,
        Ran::TooDeep,
        "Main.qml:1:37: handler limit\n",
        99_744,
        true,
    ),
    // change handlers and methods nest too
    (
        "Item { signal s; property int d: 0; onS: f(); function f() { d++ } onDChanged: if (d < 31) f() }",
        1,
        Ran::Ended,
        "",
        99_907,
        false,
    ),
    (
        "Item { signal s; property int d: 0; onS: f(); function f() { d++ } onDChanged: if (d < 32) f() }",
        1,
        Ran::TooDeep,
        "Main.qml:1:68: handler limit\n",
        99_905,
        true,
    ),
    // where it is met, every handler that is running ends, and no further one runs
    (
        "Item { signal s; onS: { s(); console.log('never') } onS: console.log('never') }",
        2,
        Ran::Ended,
        "Main.qml:1:18: handler limit\n",
        99_872,
        true,
    ),
    // 100,000 statements, and one more
    (
        "Item { signal s; onS: { for (var i = 0; i < 49998; i++) ; ; } }",
        1,
        Ran::Ended,
        "",
        0,
        false,
    ),
    (
        "Item { signal s; onS: { for (var i = 0; i < 49998; i++) ; ; ; console.log('never') } }",
        1,
        Ran::Budget,
        "Main.qml:1:18: statement limit\n",
        0,
        true,
    ),
    (
        "Item { signal s; onS: { for (var i = 0; i < 49998; i++) ; ; } onS: console.log('never') }",
        1,
        Ran::Budget,
        "Main.qml:1:63: statement limit\n",
        0,
        true,
    ),
    // over several emissions of one move
    (
        "Item { signal s; onS: for (var i = 0; i < 24999; i++) ; }",
        2,
        Ran::Ended,
        "",
        0,
        false,
    ),
    (
        "Item { signal s; onS: for (var i = 0; i < 24999; i++) ; }",
        3,
        Ran::Budget,
        "Main.qml:1:18: statement limit\n",
        0,
        true,
    ),
    (
        "Item { signal s; onS: for (var i = 0; i < 24999; i++) ; }",
        4,
        Ran::Ended,
        "Main.qml:1:18: statement limit\n",
        0,
        true,
    ),
];

#[test]
fn emissions_end_at_limits(rt: HostRuntime) -> Result<(), Fail> {
    for (text, count, ran, notes, left, dropped) in EMITTED {
        let steps = [
            Step::Emit(0, *count, &[], *ran),
            Step::Notes(notes),
            Step::Left(*left, *dropped),
        ];
        assert!(rt; passes(rt.alloc(), NONE, text, &steps)?, "{text}");
    }
    Ok(())
}
