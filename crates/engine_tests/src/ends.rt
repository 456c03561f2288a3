//! The ends of the range in what anchors give: a number of 32 bits at each end, and one beyond it, which is a fault.

use crate::makes::{Case, is_so};
use crate::steps::{Find, Step};
use qml_ast::{Place, Side};
use std::test::Fail;
use type_table::item_slots::{HEIGHT, WIDTH, X, Y};

/// A slot of the last item, of serial 4.
macro_rules! at {
    ($slot:expr) => {
        Place {
            serial: 4,
            slot: $slot,
            side: Side::Shown,
        }
    };
}

/// The item of serial 4, beside a sibling of which that is told, and tied by these anchors; a slot of it, and the number
/// that this shows, none where that is beyond the range.
macro_rules! end {
    ([$($sibling:expr),+], [$($anchors:expr),+], $slot:expr => Some($shown:expr)) => {
        end!([$($sibling),+], [$($anchors),+], $slot, $shown, false)
    };
    ([$($sibling:expr),+], [$($anchors:expr),+], $slot:expr => None) => {
        end!([$($sibling),+], [$($anchors),+], $slot, 0, true)
    };
    ([$($sibling:expr),+], [$($anchors:expr),+], $slot:expr, $shown:expr, $overflows:literal) => {
        Case {
            text: concat!("Item { Item { id: s; ", $($sibling),+, " } Item { anchors { ", $($anchors),+, " } } }"),
            steps: &[
                Step::Settle(&[Find::Overflows(at!($slot), $overflows)]),
                Step::Numbers(&[(at!($slot), $shown)]),
            ],
        }
    };
}

/// The rows of one axis, by the words that stand for it and the numbers of its two slots.
macro_rules! ends {
    ($x:literal, $width:literal, $left:literal, $right:literal, $centre:literal, $at_x:expr, $at_width:expr) => {
        [
            // fill gives the target's place and the margin
            end!([$x, ": 2147483647"], ["fill: s"], $at_x => Some(2147483647)),
            end!([$x, ": 2147483647"], ["fill: s; ", $left, "Margin: 1"], $at_x => None),
            end!([$x, ": -2147483647 - 1"], ["fill: s"], $at_x => Some(-2147483648)),
            end!([$x, ": -2147483647 - 1"], ["fill: s; ", $left, "Margin: -1"], $at_x => None),
            end!([$x, ": 2147483647"], ["fill: s; ", $left, "Margin: -2147483647 - 1"], $at_x => Some(-1)),
            // its size without both margins
            end!([$width, ": 2147483647"], ["fill: s; ", $left, "Margin: 1; ", $right, "Margin: -1"], $at_width => Some(2147483647)),
            end!([$width, ": 2147483647"], ["fill: s; ", $right, "Margin: -1"], $at_width => None),
            end!([$width, ": -2147483647 - 1"], ["fill: s; margins: 0"], $at_width => Some(-2147483648)),
            end!([$width, ": -2147483647 - 1"], ["fill: s; ", $right, "Margin: 1"], $at_width => None),
            end!([$width, ": -1"], ["fill: s; margins: -2147483647 - 1"], $at_width => None),
            // the middle of a target
            end!([$x, ": 2147483647"], ["centerIn: s"], $at_x => Some(2147483647)),
            end!([$x, ": 2147483647; ", $width, ": 2147483647"], ["centerIn: s"], $at_x => None),
            end!([$x, ": 2147483647"], ["centerIn: s; ", $centre, "Offset: 1"], $at_x => None),
            end!([$x, ": 2147483647; ", $width, ": 9"], ["centerIn: s; ", $centre, "Offset: -4"], $at_x => Some(2147483647)),
            end!([$x, ": -2147483647 - 1"], ["centerIn: s"], $at_x => Some(-2147483648)),
            end!([$x, ": -2147483647 - 1"], ["centerIn: s; ", $centre, "Offset: -1"], $at_x => None),
            // the centre alone, at a line and at a centre line
            end!([$x, ": 2147483647"], [$centre, ": s.", $left], $at_x => Some(2147483647)),
            end!([$x, ": 2147483647; ", $width, ": 1"], [$centre, ": s.", $right], $at_x => None),
            end!([$x, ": 2147483647; ", $width, ": 1"], [$centre, ": s.", $right, "; ", $centre, "Offset: -1"], $at_x => Some(2147483647)),
            end!([$x, ": -2147483647 - 1; ", $width, ": -2"], [$centre, ": s.", $centre], $at_x => None),
            end!([$x, ": -2147483647 - 1; ", $width, ": -1"], [$centre, ": s.", $centre], $at_x => Some(-2147483648)),
            // the left line alone
            end!([$x, ": 2147483647"], [$left, ": s.", $left], $at_x => Some(2147483647)),
            end!([$x, ": 2147483647"], [$left, ": s.", $left, "; ", $left, "Margin: 1"], $at_x => None),
            end!([$x, ": -2147483647 - 1"], [$left, ": s.", $left], $at_x => Some(-2147483648)),
            end!([$x, ": -2147483647 - 1"], [$left, ": s.", $left, "; ", $left, "Margin: -1"], $at_x => None),
            // a centre line for a left one
            end!([$x, ": 2147483647; ", $width, ": 2"], [$left, ": s.", $centre], $at_x => None),
            end!([$x, ": 2147483647; ", $width, ": 2"], [$left, ": s.", $centre, "; ", $left, "Margin: -1"], $at_x => Some(2147483647)),
            end!([$x, ": -2147483647 - 1; ", $width, ": -1"], [$left, ": s.", $centre], $at_x => Some(-2147483648)),
            // the right line alone
            end!([$x, ": 2147483647"], [$right, ": s.", $left], $at_x => Some(2147483647)),
            end!([$x, ": 2147483647"], [$right, ": s.", $left, "; ", $right, "Margin: -1"], $at_x => None),
            end!([$x, ": -2147483647 - 1"], [$right, ": s.", $left], $at_x => Some(-2147483648)),
            end!([$x, ": -2147483647 - 1"], [$right, ": s.", $left, "; ", $right, "Margin: 1"], $at_x => None),
            // both lines
            end!([$x, ": -2147483647 - 1"], [$left, ": s.", $left, "; ", $right, ": parent.", $left, "; ", $right, "Margin: 1"], $at_width => Some(2147483647)),
            end!([$x, ": -2147483647 - 1"], [$left, ": s.", $left, "; ", $right, ": parent.", $left], $at_width => None),
            end!([$x, ": 2147483647"], [$left, ": s.", $left, "; ", $right, ": parent.", $left, "; ", $right, "Margin: 1"], $at_width => Some(-2147483648)),
            end!([$x, ": 2147483647"], [$left, ": s.", $left, "; ", $right, ": parent.", $left, "; ", $right, "Margin: 2"], $at_width => None),
            end!([$x, ": 2147483647"], [$left, ": s.", $left, "; ", $left, "Margin: 1; ", $right, ": s.", $left, "; ", $right, "Margin: -1"], $at_x => None),
            end!([$x, ": 2147483647"], [$left, ": s.", $left, "; ", $left, "Margin: 1; ", $right, ": s.", $left, "; ", $right, "Margin: -1"], $at_width => Some(0)),
            // the left line and the centre
            end!([$width, ": 1"], [$left, ": parent.", $left, "; ", $centre, ": s.", $centre, "; ", $centre, "Offset: 1073741823"], $at_width => Some(2147483647)),
            end!([$width, ": 1"], [$left, ": parent.", $left, "; ", $centre, ": s.", $centre, "; ", $centre, "Offset: 1073741824"], $at_width => None),
            end!([""], [$left, ": parent.", $left, "; ", $centre, ": s.", $centre, "; ", $centre, "Offset: -1073741824"], $at_width => Some(-2147483648)),
            end!([$width, ": -1"], [$left, ": parent.", $left, "; ", $centre, ": s.", $centre, "; ", $centre, "Offset: -1073741824"], $at_width => None),
            end!([$x, ": 2147483647"], [$left, ": s.", $left, "; ", $left, "Margin: 1; ", $centre, ": s.", $left], $at_x => None),
            end!([$x, ": 2147483647"], [$left, ": s.", $left, "; ", $left, "Margin: 1; ", $centre, ": s.", $left], $at_width => Some(-2)),
            // the right line and the centre
            end!([$width, ": 1"], [$right, ": parent.", $left, "; ", $right, "Margin: -1073741824; ", $centre, ": s.", $centre], $at_width => Some(2147483647)),
            end!([""], [$right, ": parent.", $left, "; ", $right, "Margin: -1073741824; ", $centre, ": s.", $centre], $at_width => None),
            end!([""], [$right, ": parent.", $left, "; ", $right, "Margin: 1073741824; ", $centre, ": s.", $centre], $at_width => Some(-2147483648)),
            end!([$width, ": 1"], [$right, ": parent.", $left, "; ", $right, "Margin: 1073741824; ", $centre, ": s.", $centre], $at_width => None),
            end!([$x, ": 2147483647"], [$right, ": s.", $left, "; ", $centre, ": s.", $left], $at_x => Some(2147483647)),
            end!([$x, ": 2147483647"], [$right, ": s.", $left, "; ", $centre, ": s.", $left, "; ", $centre, "Offset: 1"], $at_x => None),
            end!([$x, ": -2147483647 - 1"], [$right, ": s.", $left, "; ", $centre, ": s.", $left], $at_x => Some(-2147483648)),
            end!([$x, ": -2147483647 - 1"], [$right, ": s.", $left, "; ", $centre, ": s.", $left, "; ", $centre, "Offset: -1"], $at_x => None),
        ]
    };
}

static ACROSS: [Case; 52] = ends!("x", "width", "left", "right", "horizontalCenter", X, WIDTH);

static DOWNWARDS: [Case; 52] = ends!("y", "height", "top", "bottom", "verticalCenter", Y, HEIGHT);

#[test]
fn anchors_reach_the_ends_of_the_range(rt: HostRuntime) -> Result<(), Fail> {
    for case in ACROSS.iter().chain(&DOWNWARDS) {
        assert!(rt; is_so(rt.alloc(), case)?, "{}", case.text);
    }
    Ok(())
}
