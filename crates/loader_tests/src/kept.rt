//! Fetches that fail, and what the cache keeps.

use crate::store::gives;
use std::test::Fail;

/// Four documents, each of which is fetched.
const FOUR: &str = "Main.qml: Item { A { } B { } }\nA.qml: C { }\nB.qml: C { }\nC.qml: Item { }";

/// What comes before each of some loads of `Main.qml` over the same cache, and what they give.
const LOADS: &[(&[(&str, u64)], &str)] = &[
    // A fetch that fails.
    (&[(FOUR, 1)], "read fault"),
    (&[(FOUR, 2)], "read fault"),
    (&[(FOUR, 3)], "read fault"),
    (&[(FOUR, 4)], "read fault"),
    (&[(FOUR, 5)], "Main.qml A.qml B.qml C.qml "),
    // After a failed fetch the document before it is kept.
    (
        &[("Main.qml: Item { A { } }\nA.qml: Item { }", 2), ("", 4)],
        "read fault, Main.qml A.qml ",
    ),
    // After a unit nothing is fetched.
    (
        &[("Main.qml: Item { A { } }\nA.qml: Item { }", 0), ("", 3)],
        "Main.qml A.qml , Main.qml A.qml ",
    ),
    // A file that has changed is not seen.
    (
        &[
            ("Main.qml: Item { A { } }\nA.qml: Item { }", 0),
            ("A.qml: #", 3),
        ],
        "Main.qml A.qml , Main.qml A.qml ",
    ),
    // After a missing file the others are kept, and it is fetched again.
    (
        &[
            ("Main.qml: Item { A { } }\nA.qml: X { }", 0),
            ("X.qml: Item { }", 4),
        ],
        "A.qml: 1:1: unknown type, read fault",
    ),
    (
        &[
            ("Main.qml: Item { A { } }\nA.qml: X { }", 0),
            ("X.qml: Item { }", 5),
        ],
        "A.qml: 1:1: unknown type, Main.qml A.qml X.qml ",
    ),
    // After a bad text too.
    (
        &[
            (
                "Main.qml: Item { A { } B { } }\nA.qml: #\nB.qml: Item { }",
                0,
            ),
            ("A.qml: Item { }", 3),
        ],
        "A.qml: 1:1: bad token, read fault",
    ),
    (
        &[
            (
                "Main.qml: Item { A { } B { } }\nA.qml: #\nB.qml: Item { }",
                0,
            ),
            ("A.qml: Item { }", 5),
        ],
        "A.qml: 1:1: bad token, Main.qml A.qml B.qml ",
    ),
    // After a cycle and after a fault of compiling all are kept.
    (
        &[
            ("Main.qml: Item { A { } }\nA.qml: A { }", 0),
            ("A.qml: Item { }", 3),
        ],
        "A.qml: cycle, A.qml: cycle",
    ),
    (
        &[
            ("Main.qml: Item { A { } }\nA.qml: Item { foo: 1 }", 0),
            ("A.qml: Item { }", 3),
        ],
        "A.qml: 1:8: unknown property, A.qml: 1:8: unknown property",
    ),
];

#[test]
fn failed_fetches_and_the_cache(rt: HostRuntime) -> Result<(), Fail> {
    for (row, (steps, wanted)) in LOADS.iter().enumerate() {
        assert!(rt;
            gives(rt.alloc(), "Main.qml", steps, wanted)?,
            "row {row}, {wanted}"
        );
    }
    Ok(())
}
