//! What `console.log` writes.

use crate::worlds::{Step, passes_within};
use std::test::Fail;

/// Arguments, and the line that is written of them.
const ROWS: &[(&str, &str)] = &[
    ("", "qml: \n"),
    ("''", "qml: \n"),
    ("'a', '', 'b'", "qml: a  b\n"),
    (
        "0, 2147483647, -2147483647 - 1",
        "qml: 0 2147483647 -2147483648\n",
    ),
    ("true, 1 > 2", "qml: true false\n"),
    ("c, d", "qml: #010203 #0a0b0c0d\n"),
    ("null, o, parent, r", "qml: null null object object\n"),
    (
        "undefined, v, anchors.left",
        "qml: undefined undefined undefined\n",
    ),
    ("left, r.bottom", "qml: line line\n"),
    ("'tab\\there', \"it's\"", "qml: tab\there it's\n"),
    ("'é€', '\\u00e9'", "qml: é€ é\n"),
    (
        "'' + 1 + true + null + c + undefined",
        "qml: 1truenull#010203undefined\n",
    ),
];

/// What stands before and behind the arguments.
const LOGGED: (&str, &str) = (
    "Item { id: r; property color c: '#010203'; property color d: '#0A0B0C0D'; \
    property Item o; property var v; Component.onCompleted: console.log(",
    ") }",
);

#[test]
fn values_are_logged(rt: HostRuntime) -> Result<(), Fail> {
    for (arguments, line) in ROWS {
        assert!(rt;
            passes_within(rt.alloc(), LOGGED, arguments, &[Step::Notes(line)])?,
            "{arguments}"
        );
    }
    Ok(())
}

/// Arguments, and how many bytes of a line they make; 0 where the line would be too long. The text `t` has 32,768
/// bytes, and `u` one less.
const LONG: &[(&str, usize)] = &[
    ("t + t", 65_536),
    ("t + u", 65_535),
    ("t, u", 65_536),
    ("u, t", 65_536),
    ("u, u", 65_535),
    ("t, u, ''", 0),
    ("t, t", 0),
    ("t + t, ''", 0),
    ("'', t + u", 65_536),
    ("'', t + t", 0),
    ("t + t + 'a'", 0),
];

/// What stands before and behind those arguments.
const LONG_LOGGED: (&str, &str) = (
    "Item { property string u: 'aaaaaaa'; property string t\nComponent.onCompleted: { t = 'a' + u; \
    for (var i = 0; i < 12; i++) { u = t + u; t += t } console.log(",
    ") } }",
);

#[test]
fn lines_have_a_longest(rt: HostRuntime) -> Result<(), Fail> {
    for (arguments, length) in LONG {
        // with the mark before it and its end
        let step = if *length > 0 {
            Step::NoteBytes(length.saturating_add(6))
        } else {
            Step::Notes("Main.qml:2:1: evaluation fault: text too long\n")
        };
        assert!(rt;
            passes_within(rt.alloc(), LONG_LOGGED, arguments, &[step])?,
            "{arguments}"
        );
    }
    Ok(())
}
