//! What the handlers of a MouseArea know of the mouse.

use crate::worlds::{Step, passes_within};
use signals::Ran;
use std::test::Fail;

/// A statement of the handler of `clicked`, and what is noted where it is run with 3 and -4.
const HANDLED: &[(&str, &str)] = &[
    ("console.log(mouse.x, mouse.y)", "qml: 3 -4\n"),
    (
        "{ var k = mouse.x * 10; k += mouse.y; console.log(k) }",
        "qml: 26\n",
    ),
    ("n = mouse.y", "qml: n -4\n"),
    (
        "for (; n < mouse.x; n++) ;",
        "qml: n 1\nqml: n 2\nqml: n 3\n",
    ),
    // a local that is declared takes its place
    ("{ var mouse = 5; console.log(mouse) }", "qml: 5\n"),
    // another handler, and a method, do not have it
    (
        "{ f(1); console.log(mouse.x) }",
        "Main.qml:2:1: evaluation fault: unknown name\nqml: 3\n",
    ),
    (
        "{ area.pressed = true }",
        "Main.qml:2:1: evaluation fault: read only\n",
    ),
    // it is no value, and cannot be written
    (
        "console.log(mouse)",
        "Main.qml:2:1: evaluation fault: wrong kind\n",
    ),
    ("n = mouse", "Main.qml:2:1: evaluation fault: wrong kind\n"),
    (
        "if (mouse) ;",
        "Main.qml:2:1: evaluation fault: wrong kind\n",
    ),
    ("mouse()", "Main.qml:2:1: evaluation fault: wrong kind\n"),
    ("mouse.x()", "Main.qml:2:1: evaluation fault: wrong kind\n"),
    ("mouse = 1", "Main.qml:2:1: evaluation fault: read only\n"),
    (
        "mouse = 1 / 0",
        "Main.qml:2:1: evaluation fault: zero divisor\n",
    ),
    ("mouse += 1", "Main.qml:2:1: evaluation fault: wrong kind\n"),
    ("mouse++", "Main.qml:2:1: evaluation fault: wrong kind\n"),
    (
        "mouse.x = 1",
        "Main.qml:2:1: evaluation fault: wrong kind\n",
    ),
    (
        "mouse.button",
        "Main.qml:2:1: evaluation fault: unknown name\n",
    ),
    // signals that a document emits
    ("area.released(5, 6)", "qml: released 5 6\n"),
    ("area.released(mouse.y, mouse.x)", "qml: released -4 3\n"),
    (
        "area.released()",
        "Main.qml:2:1: evaluation fault: wrong kind\n",
    ),
    (
        "area.released(1)",
        "Main.qml:2:1: evaluation fault: wrong kind\n",
    ),
    (
        "area.released(1, 2, 3)",
        "Main.qml:2:1: evaluation fault: wrong kind\n",
    ),
    (
        "area.released(1, 'a')",
        "Main.qml:2:1: evaluation fault: wrong kind\n",
    ),
    // the property of this name stands before the signal
    (
        "area.pressed(1, 2)",
        "Main.qml:2:1: evaluation fault: wrong kind\n",
    ),
];

/// The document of an area, whose first handler, in the second line, is that of `clicked`.
const AREA: (&str, &str) = (
    "MouseArea { id: area; property int n: 0; function f(a) { console.log(mouse) }\nonClicked: ",
    "\nonReleased: console.log('released', mouse.x, mouse.y); onNChanged: console.log('n', n) }",
);

#[test]
fn handlers_know_the_mouse(rt: HostRuntime) -> Result<(), Fail> {
    for (statement, notes) in HANDLED {
        let steps = [Step::Exec(0, &[3, -4], Ran::Ended), Step::Notes(notes)];
        assert!(rt;
            passes_within(rt.alloc(), AREA, statement, &steps)?,
            "{statement}"
        );
    }
    Ok(())
}

/// The handlers of `clicked` where the area emits its signals.
const CLICKED: &str =
    "console.log('clicked', mouse.x, mouse.y)\nonClicked: console.log('clicked again', mouse.x)";

/// The number of a signal of the area, where the mouse is, and what is noted where it is emitted.
const EMITTED: &[(u32, i32, i32, &str)] = &[
    (0, 1, 2, ""),
    (1, 1, 2, "qml: released 1 2\n"),
    (
        1,
        -2147483648,
        2147483647,
        "qml: released -2147483648 2147483647\n",
    ),
    (2, 7, 0, "qml: clicked 7 0\nqml: clicked again 7\n"),
];

#[test]
fn signals_of_the_mouse_are_emitted(rt: HostRuntime) -> Result<(), Fail> {
    for (signal, x, y, notes) in EMITTED {
        let steps = [
            Step::Emit(*signal, 1, &[*x, *y], Ran::Ended),
            Step::Notes(notes),
        ];
        assert!(rt;
            passes_within(rt.alloc(), AREA, CLICKED, &steps)?,
            "{notes}"
        );
    }
    Ok(())
}
