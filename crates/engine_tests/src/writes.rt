//! What a settle makes of writes after an earlier settle.

use crate::makes::{Case, is_so};
use crate::steps::{Find, Step};
use qml_ast::{Place, Side};
use std::test::Fail;
use type_table::item_slots::{CHILDREN_RECT_WIDTH, CHILDREN_RECT_X, WIDTH, X, Y};

macro_rules! set {
    ($serial:expr, $slot:expr) => {
        Place {
            serial: $serial,
            slot: $slot,
            side: Side::Set,
        }
    };
}

macro_rules! shown {
    ($serial:expr, $slot:expr) => {
        Place {
            serial: $serial,
            slot: $slot,
            side: Side::Shown,
        }
    };
}

/// A document; the place that is written, and the number; what places hold then, which of them show another value,
/// and how many loops there are.
macro_rules! case {
    ($text:literal, $written:expr, $number:literal => $numbers:expr, $changed:expr, $loops:literal) => {
        Case {
            text: $text,
            steps: &[
                Step::Settle(&[]),
                Step::Write($written, $number, &[Find::Changed($changed), Find::LoopCount($loops)]),
                Step::Numbers($numbers),
            ],
        }
    };
}

static CASES: [Case; 7] = [
    // a chain of three declared properties
    case!("Item { property int a: b + 1; property int b: c + 1; property int c: 3 }", shown!(2, 39), 7 =>
        &[(shown!(2, 37), 9), (shown!(2, 38), 8)], &[shown!(2, 37), shown!(2, 38), shown!(2, 39)], 0),
    // the place that a loop had stopped is resumed by a write to its object, here one that opens the loop
    case!("Item { x: y + 1; y: x + 1 }", set!(2, Y), 5 => &[(shown!(2, X), 6), (shown!(2, Y), 5)], &[shown!(2, X), shown!(2, Y)], 0),
    // by one that leaves the loop, which is found again
    case!("Item { property int z1; x: y + 1; y: x + 1 }", shown!(2, 37), 5 => &[(shown!(2, X), 0), (shown!(2, Y), 1)], &[shown!(2, 37)], 1),
    // and not by a write to another object, which moves what its parent holds
    case!("Item { x: y + 1; y: x + 1; Item { } }", set!(3, X), 5 => &[(shown!(2, X), 0), (shown!(2, Y), 1)], &[shown!(2, CHILDREN_RECT_X), shown!(3, X)], 0),
    // a place whose expression faults from now on keeps its last value
    case!("Item { property int a: 12 / b; property int b: 3 }", shown!(2, 38), 0 => &[(shown!(2, 37), 4), (shown!(2, 38), 0)], &[shown!(2, 38)], 0),
    // a chain through a size that anchors give
    case!("Item { property int n: 3; width: n; Item { id: a; anchors.fill: parent; property int m: width * 2 } }", shown!(2, 37), 8 =>
        &[(shown!(3, WIDTH), 8), (shown!(3, 37), 16)],
        &[shown!(2, WIDTH), shown!(2, CHILDREN_RECT_WIDTH), shown!(2, 37), shown!(3, WIDTH), shown!(3, 37)], 0),
    // an equal value changes nothing
    case!("Item { property int a: b; property int b: 3 }", shown!(2, 38), 3 => &[(shown!(2, 37), 3)], &[], 0),
];

#[test]
fn writes_settle(rt: HostRuntime) -> Result<(), Fail> {
    for case in &CASES {
        assert!(rt; is_so(rt.alloc(), case)?, "{}", case.text);
    }
    Ok(())
}
