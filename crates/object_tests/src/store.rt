//! What a store holds, also after calls.

use crate::makes::{Case, held};
use crate::steps::Step::*;
use qml_ast::{EvalFault, Place, Side};
use std::test::Fail;
use type_table::item_slots::{OBJECT_NAME, PARENT, WIDTH, X, Y};

macro_rules! place {
    ($serial:literal, $slot:expr, $side:ident) => {
        Place {
            serial: $serial,
            slot: $slot,
            side: Side::$side,
        }
    };
}

/// A document with an object that is the value of a property, unless a document outside gives that property something
/// else.
const INNER: &str = "Item { property Item p: Item { } Item { } }";

// Documents, and what their stores hold in turn.
static CASES: [Case; 8] = [
    // objects are made in their order
    Case {
        first: INNER,
        text: "Item { A { p: b } Item { id: b } x: 3 }",
        steps: &[
            Live(6),
            Places(6 * 45 + 1),
            Child(1, 0, Some(2)),
            Child(2, 1, Some(6)),
            Child(3, 1, Some(5)),
            Child(3, 2, None),
            Refers(place!(3, PARENT, Shown), 2),
            Refers(place!(4, PARENT, Shown), 0),
            Refers(place!(5, PARENT, Shown), 3),
            Bound(place!(2, X, Set), true),
            Given(place!(2, X, Set), true),
        ],
    },
    // objects are values of properties
    Case {
        first: INNER,
        text: "A { }",
        steps: &[Refers(place!(2, 37, Shown), 3), Parent(4, Some(2))],
    },
    Case {
        first: INNER,
        text: "A { p: null }",
        steps: &[
            Refers(place!(2, 37, Shown), 0),
            Bound(place!(2, 37, Shown), true),
        ],
    },
    Case {
        first: INNER,
        text: "A { p: Item { } }",
        steps: &[
            Refers(place!(2, 37, Shown), 5),
            Bound(place!(2, 37, Shown), false),
        ],
    },
    // items stand in items: the root, a child, the value of a property, and an object that is no item and owns one
    Case {
        first: INNER,
        text: "Item { property Item p: Item { } QtObject { property Item q: Item { } } }",
        steps: &[
            Parent(1, None),
            Parent(2, Some(1)),
            Parent(3, None),
            Parent(4, None),
            Parent(5, None),
            Parent(6, None),
            Owned(2, &[3, 4]),
            Owned(6, &[]),
        ],
    },
    // what writes of documents leave
    Case {
        first: INNER,
        text: "Item { width: 1 }",
        steps: &[
            Number(place!(2, OBJECT_NAME, Shown), 7, Ok(())),
            Text(place!(2, WIDTH, Set), "a", Err(EvalFault::WrongKind)),
            Bound(place!(2, WIDTH, Set), true),
            Number(place!(2, WIDTH, Set), 7, Ok(())),
            Number(place!(1, OBJECT_NAME, Shown), 7, Err(EvalFault::ReadOnly)),
            Shows(place!(2, OBJECT_NAME, Shown), "7"),
            Bound(place!(2, WIDTH, Set), false),
        ],
    },
    // what is kept of ignored anchors, and what the next keeping forgets
    Case {
        first: INNER,
        text: "Item { }",
        steps: &[
            Ignored(place!(2, X, Shown), false),
            Keep(&[
                place!(2, X, Shown),
                place!(2, Y, Shown),
                place!(2, X, Shown),
            ]),
            Ignored(place!(2, X, Shown), true),
            Ignored(place!(2, Y, Shown), true),
            Keep(&[place!(2, Y, Shown)]),
            Ignored(place!(2, Y, Shown), true),
            Ignored(place!(2, X, Shown), false),
        ],
    },
    // what a making leaves where memory runs out
    Case {
        first: "Item { id: a; property Item p: Item { } signal s; function f() { } Item { id: b } }",
        text: "A { id: c; property int n: width; A { p: c } A { id: d; width: n } onS: { } }",
        steps: &[Live(10), Owned(1, &[2])],
    },
];

#[test]
fn stores_hold_what_is_told(rt: HostRuntime) -> Result<(), Fail> {
    for case in &CASES {
        let held = held(rt.alloc(), case)?;
        assert_eq!(rt; held, case.steps.len(), "{}", case.text);
    }
    Ok(())
}
