//! What documents come to once they are made and settled.

use crate::makes::{Case, is_so};
use crate::steps::{Find, Loop, Step};
use qml_ast::{EvalFault, Place, Side};
use std::test::Fail;
use type_table::item_slots::{CHILDREN_RECT_HEIGHT, CHILDREN_RECT_WIDTH, HEIGHT, WIDTH, X, Y};

macro_rules! set {
    ($serial:expr, $slot:expr) => {
        Place {
            serial: $serial,
            slot: $slot,
            side: Side::Set,
        }
    };
}

macro_rules! shown {
    ($serial:expr, $slot:expr) => {
        Place {
            serial: $serial,
            slot: $slot,
            side: Side::Shown,
        }
    };
}

/// A document, what places of it hold, and the loops and the faults that are found.
macro_rules! case {
    ($text:literal => $numbers:expr, $loops:expr, $faults:expr) => {
        Case {
            text: $text,
            steps: &[
                Step::Settle(&[Find::Changed(&[]), Find::Loops($loops), Find::Faults($faults)]),
                Step::Numbers($numbers),
            ],
        }
    };
}

macro_rules! found {
    ($place:expr, $chain:expr) => {
        Loop {
            place: $place,
            chain: $chain,
        }
    };
}

// The document's root has the serial 2, and its first declared property is the slot 37.
static CASES: [Case; 25] = [
    case!("Item { width: 3 }" => &[(set!(2, WIDTH), 3), (shown!(2, WIDTH), 3), (shown!(2, HEIGHT), 0)], &[], &[]),
    // two properties that read each other: the first one is stopped, and the other one has its value
    case!("Item { x: y + 1; y: x + 1 }" => &[(set!(2, X), 0), (shown!(2, X), 0), (set!(2, Y), 1), (shown!(2, Y), 1)],
        &[found!(set!(2, X), &[shown!(2, Y), set!(2, Y), shown!(2, X)])], &[]),
    // a diamond is no loop
    case!("Item { property int a: 1; property int b: a; property int c: a + b }" =>
        &[(shown!(2, 37), 1), (shown!(2, 38), 1), (shown!(2, 39), 2)], &[], &[]),
    // what is read later in the order of places
    case!("Item { property int a: b + 1; property int b: c + 1; property int c: 3 }" =>
        &[(shown!(2, 37), 5), (shown!(2, 38), 4), (shown!(2, 39), 3)], &[], &[]),
    // siblings and owners
    case!("Item { width: 7; Item { id: p; width: parent.width - 2 } Item { width: p.width + 1 } }" =>
        &[(shown!(3, WIDTH), 5), (shown!(4, WIDTH), 6)], &[], &[]),
    // a property that reads itself
    case!("Item { property int a: a + 1; property int b: a + 1 }" => &[(shown!(2, 37), 0), (shown!(2, 38), 1)],
        &[found!(shown!(2, 37), &[])], &[]),
    // an expression that faults leaves the last value, which others read
    case!("Item { property int a: 1 / 0; property int b: a + 1 }" => &[(shown!(2, 37), 0), (shown!(2, 38), 1)], &[],
        &[(shown!(2, 37), EvalFault::ZeroDivisor)]),
    // a value that the slot does not take
    case!("Item { property int a: 1 == 1; height: a + 2 }" => &[(shown!(2, 37), 0), (shown!(2, HEIGHT), 2)], &[],
        &[(shown!(2, 37), EvalFault::WrongKind)]),
    case!("Item { x: foo; y: 2147483647 + 1 }" => &[(shown!(2, X), 0), (shown!(2, Y), 0)], &[],
        &[(set!(2, X), EvalFault::UnknownName), (set!(2, Y), EvalFault::Overflow)]),
    case!("Item { property Item o; x: o.width }" => &[(shown!(2, X), 0)], &[], &[(set!(2, X), EvalFault::NullMember)]),
    // another property decides whether there is a loop
    case!("Item { property bool on: false; property int a: on ? b : 1; property int b: a }" =>
        &[(shown!(2, 38), 1), (shown!(2, 39), 1)], &[], &[]),
    case!("Item { property bool on: true; property int a: on ? b : 1; property int b: a + 4 }" =>
        &[(shown!(2, 38), 0), (shown!(2, 39), 4)], &[found!(shown!(2, 38), &[shown!(2, 39)])], &[]),
    // two loops that share a place
    case!("Item { property int a: b + 1; property int b: a + c; property int c: b }" =>
        &[(shown!(2, 37), 0), (shown!(2, 38), 0), (shown!(2, 39), 0)],
        &[found!(shown!(2, 37), &[shown!(2, 38)]), found!(shown!(2, 38), &[shown!(2, 39)])], &[]),
    // a function of one `return` is called over the same places
    case!("Item { width: 5; property int a: f(2) + 1; function f(n) { return n * width } }" => &[(shown!(2, 37), 11)], &[], &[]),
    // one of two statements is no expression
    case!("Item { property int a: f(); function f() { ; return 1 } }" => &[(shown!(2, 37), 0)], &[],
        &[(shown!(2, 37), EvalFault::WrongKind)]),
    // a loop in a fault's shadow: the fault comes before the read that would close it
    case!("Item { property int a: 1 / 0 + b; property int b: a }" => &[(shown!(2, 37), 0), (shown!(2, 38), 0)], &[],
        &[(shown!(2, 37), EvalFault::ZeroDivisor)]),
    // a size that follows the children, one of which fills it: the chain from the size that is stopped, by its reads
    case!("Item { width: childrenRect.width; Item { anchors.fill: parent } }" => &[(shown!(2, WIDTH), 0), (shown!(3, WIDTH), 0)],
        &[found!(set!(2, WIDTH), &[shown!(2, CHILDREN_RECT_WIDTH), shown!(3, WIDTH), shown!(2, WIDTH)])], &[]),
    case!("Item { height: childrenRect.height; Item { anchors.fill: parent; anchors.topMargin: 3 } }" => &[(shown!(2, HEIGHT), 0), (shown!(3, HEIGHT), -3)],
        &[found!(set!(2, HEIGHT), &[shown!(2, CHILDREN_RECT_HEIGHT), shown!(3, HEIGHT), shown!(2, HEIGHT)])], &[]),
    // one that is tied to its right line asks for it by its place
    case!("Item { width: childrenRect.width; Item { anchors.right: parent.right; width: 5 } }" => &[(shown!(2, WIDTH), 0), (shown!(3, X), -5)],
        &[found!(set!(2, WIDTH), &[shown!(2, CHILDREN_RECT_WIDTH), shown!(3, X), shown!(2, WIDTH)])], &[]),
    // through two children
    case!("Item { width: childrenRect.width; Item { anchors.left: b.right; width: 2 } Item { id: b; width: parent.width } }" => &[(shown!(2, WIDTH), 0), (shown!(3, X), 0)],
        &[found!(set!(2, WIDTH), &[shown!(2, CHILDREN_RECT_WIDTH), shown!(3, X), shown!(4, WIDTH), set!(4, WIDTH), shown!(2, WIDTH)])], &[]),
    // a child's own size is met first as its parent's rectangle asks for it, and the root's own as it is set
    case!("Item { Item { width: width + 1 } }" => &[(shown!(3, WIDTH), 0), (set!(3, WIDTH), 1)], &[found!(shown!(3, WIDTH), &[set!(3, WIDTH)])], &[]),
    case!("Item { width: width + 1 }" => &[(shown!(2, WIDTH), 0)], &[found!(set!(2, WIDTH), &[shown!(2, WIDTH)])], &[]),
    // two siblings that are tied to each other
    case!("Item { Item { id: a; anchors.left: b.right } Item { id: b; anchors.left: a.right } }" => &[(shown!(3, X), 0), (shown!(4, X), 0)],
        &[found!(shown!(3, X), &[shown!(4, X)])], &[]),
    // two loops, apart from each other, in the order in which they are met
    case!("Item { property int a: b; property int b: a; property int c: d; property int d: c + 1 }" => &[(shown!(2, 39), 0), (shown!(2, 40), 1)],
        &[found!(shown!(2, 37), &[shown!(2, 38)]), found!(shown!(2, 39), &[shown!(2, 40)])], &[]),
    // of many places
    case!("Item { property int a: b + 1; property int b: c + 1; property int c: d + 1; property int d: e + 1; property int e: a + 1 }" =>
        &[(shown!(2, 37), 0), (shown!(2, 38), 4), (shown!(2, 41), 1)],
        &[found!(shown!(2, 37), &[shown!(2, 38), shown!(2, 39), shown!(2, 40), shown!(2, 41)])], &[]),
];

#[test]
fn documents_settle(rt: HostRuntime) -> Result<(), Fail> {
    for case in &CASES {
        assert!(rt; is_so(rt.alloc(), case)?, "{}", case.text);
    }
    Ok(())
}
