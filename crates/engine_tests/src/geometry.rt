//! What items show by their anchors, their parents and their children.

use crate::makes::{Case, is_so};
use crate::steps::{Find, Step};
use qml_ast::{EvalFault, Place, Side};
use std::test::Fail;
use type_table::item_slots::*;

macro_rules! at {
    ($serial:literal, $slot:expr) => {
        Place {
            serial: $serial,
            slot: $slot,
            side: Side::Shown,
        }
    };
}

/// A document in which an object of that serial shows these numbers: x, y, width and height.
macro_rules! stands {
    ($text:expr, $serial:literal => $x:literal, $y:literal, $width:literal, $height:literal) => {
        Case {
            text: $text,
            steps: &[
                Step::Settle(&[]),
                Step::Numbers(&[
                    (at!($serial, X), $x),
                    (at!($serial, Y), $y),
                    (at!($serial, WIDTH), $width),
                    (at!($serial, HEIGHT), $height),
                ]),
            ],
        }
    };
}

/// The item of serial 4, of 7 by 9, in a parent of 100 by 60, beside a sibling at 10, 5 of 21 by 11.
macro_rules! anchored {
    ($anchors:literal => $x:literal, $y:literal, $width:literal, $height:literal) => {
        stands!(
            concat!(
                "Item { width: 100; height: 60; Item { id: s; x: 10; y: 5; width: 21; height: 11 } ",
                "Item { width: 7; height: 9; anchors { ",
                $anchors,
                " } } }"
            ), 4 => $x, $y, $width, $height)
    };
}

static STANDS: [Case; 30] = [
    anchored!("fill: parent" => 0, 0, 100, 60),
    anchored!("fill: s" => 10, 5, 21, 11),
    // a margin is its own where that is set, and 0 is
    anchored!("fill: s; margins: 2; leftMargin: 3; bottomMargin: 0" => 13, 7, 16, 9),
    // half a pixel is cut off
    anchored!("centerIn: parent" => 46, 25, 7, 9),
    anchored!("centerIn: s; horizontalCenterOffset: 3; verticalCenterOffset: -1" => 20, 5, 7, 9),
    anchored!("left: parent.left; right: s.right; leftMargin: 4; top: s.top; bottom: parent.bottom; bottomMargin: 5" => 4, 5, 27, 50),
    anchored!("left: s.right; top: s.bottom; margins: 2" => 33, 18, 7, 9),
    anchored!("right: s.left; bottom: s.top; margins: 1" => 2, -5, 7, 9),
    anchored!("left: s.left; horizontalCenter: parent.horizontalCenter; top: s.top; verticalCenter: s.verticalCenter; verticalCenterOffset: 2" => 10, 5, 80, 15),
    anchored!("right: parent.right; rightMargin: 10; horizontalCenter: s.horizontalCenter; bottom: parent.bottom; verticalCenter: parent.verticalCenter; verticalCenterOffset: 5" => -49, 10, 139, 50),
    // the centre alone, at a line, which has no size, and at a centre line
    anchored!("horizontalCenter: s.right; verticalCenter: s.bottom" => 27, 11, 7, 9),
    anchored!("horizontalCenter: parent.horizontalCenter; verticalCenter: s.verticalCenter" => 46, 6, 7, 9),
    // left and top at a centre line
    anchored!("left: s.horizontalCenter; top: s.verticalCenter" => 20, 10, 7, 9),
    anchored!("right: parent.horizontalCenter; bottom: parent.verticalCenter" => 43, 21, 7, 9),
    // fill goes before centerIn, and that before lines
    anchored!("fill: s; left: parent.left; centerIn: parent" => 10, 5, 21, 11),
    anchored!("centerIn: parent; left: parent.left; top: parent.top" => 46, 25, 7, 9),
    // nothing is tied
    anchored!("fill: null; left: undefined; right: parent.right" => 93, 0, 7, 9),
    // what is no parent and no sibling, and lines of the other axis
    anchored!("fill: parent.parent; left: parent.top; top: s.left" => 0, 0, 7, 9),
    // of three lines of an axis the centre counts for nothing
    anchored!("left: s.left; right: s.right; horizontalCenter: parent.left" => 10, 0, 21, 9),
    stands!("Item { width: 10; height: 4; Item { width: 13; height: 7; anchors.centerIn: parent } }", 3 => -1, -1, 13, 7),
    // a size that is set to 0 is set; else the implicit one is shown
    stands!("Item { implicitWidth: 5; implicitHeight: 6; width: 0 }", 2 => 0, 0, 0, 6),
    // a chain through sizes that follow from anchors
    stands!("Item { width: 9; Item { id: a; anchors.fill: parent; Item { id: b; width: a.width + 1 } } Item { x: a.width; width: b.width } }", 5 => 9, 0, 10, 0),
    // the root in the window's item, which has no size in this store
    stands!("Item { anchors.fill: parent; anchors.margins: -2 }", 2 => -2, -2, 4, 4),
    // an object that is a property's value has no parent
    stands!("Item { property Item o: Item { x: 3; width: 2; anchors.left: parent } }", 3 => 3, 0, 2, 0),
    // a size that follows the children, whatever they show of themselves
    stands!("Item { x: childrenRect.x; y: childrenRect.y; width: childrenRect.width; height: childrenRect.height; Item { x: -3; y: 2; width: 10; height: 4 } Item { x: 5; y: -6; width: 20; height: -2; visible: false } QtObject { } }", 2 => -3, -6, 28, 12),
    stands!("Item { x: childrenRect.x; width: childrenRect.width; height: childrenRect.height; Item { width: -5 } }", 2 => 0, 0, -5, 0),
    stands!("Item { width: childrenRect.width; height: childrenRect.height; Item { id: a; width: 30; height: 20 } Item { anchors.top: a.bottom; anchors.left: a.right; width: 4; height: 5 } }", 2 => 0, 0, 34, 25),
    stands!("Item { x: childrenRect.x + 1; width: childrenRect.width + 2 }", 2 => 1, 0, 2, 0),
    // sums are made without bound on the way
    stands!("Item { Item { id: a; x: 2147483647; width: 10 } Item { anchors.left: a.right; anchors.leftMargin: -10 } }", 4 => 2147483647, 0, 0, 0),
    // what fills its parent reads it, and the parent, which reads what it holds, is stopped
    stands!("Item { width: childrenRect.width; Item { anchors.fill: parent } }", 2 => 0, 0, 0, 0),
];

#[test]
fn items_stand_by_their_anchors(rt: HostRuntime) -> Result<(), Fail> {
    for case in &STANDS {
        assert!(rt; is_so(rt.alloc(), case)?, "{}", case.text);
    }
    Ok(())
}

/// A document, whether its last object, of that serial, is visible and enabled, the faults that are found, and the
/// anchors that count for nothing. What is found is found once: a second settle tells no fault and no anchor again.
macro_rules! found {
    ($text:literal, $serial:literal => $visible:literal, $enabled:literal, $faults:expr, $ignored:expr) => {
        Case {
            text: $text,
            steps: &[
                Step::Settle(&[Find::Faults($faults), Find::Ignored($ignored)]),
                Step::Settle(&[Find::Faults(&[]), Find::Ignored(&[])]),
                Step::Flag(at!($serial, VISIBLE), $visible),
                Step::Flag(at!($serial, ENABLED), $enabled),
            ],
        }
    };
}

static FOUND: [Case; 13] = [
    found!("Item { Item { } }", 3 => true, true, &[], &[]),
    found!("Item { visible: false; Item { Item { } } }", 4 => false, true, &[], &[]),
    found!("Item { enabled: false; Item { visible: false; Item { visible: true } } }", 4 => false, false, &[], &[]),
    // an object that is a property's value has nobody above it
    found!("Item { visible: false; property Item o: Item { enabled: false } }", 3 => true, false, &[], &[]),
    // what leaves the range keeps its last value, and its parent's rectangle leaves it too
    found!("Item { Item { id: a; x: 2147483647; width: 9 } Item { anchors.left: a.right } }", 4 => true, true,
        &[(at!(2, CHILDREN_RECT_WIDTH), EvalFault::Overflow), (at!(4, X), EvalFault::Overflow)], &[]),
    // a child that ends before it begins, and below the range
    found!("Item { Item { y: -2147483647 - 1; height: -1 } }", 3 => true, true, &[], &[]),
    found!("Item { Item { id: a; y: 9; height: -2147483647 - 1 } Item { anchors.bottom: a.bottom; height: 10 } }", 4 => true, true,
        &[(at!(4, Y), EvalFault::Overflow)], &[]),
    found!("Item { width: 2147483647; Item { anchors.fill: parent; anchors.margins: -1 } }", 3 => true, true,
        &[(at!(3, WIDTH), EvalFault::Overflow)], &[]),
    // each anchor is judged by itself, also beside one that wins
    found!("Item { Item { anchors.fill: parent; anchors.left: parent.top } }", 3 => true, true, &[], &[(at!(3, ANCHORS_LEFT), false)]),
    found!("Item { Item { id: a; anchors { fill: a; centerIn: parent.parent; top: parent.left; bottom: a.bottom } } }", 3 => true, true, &[],
        &[(at!(3, ANCHORS_TOP), false), (at!(3, ANCHORS_BOTTOM), false), (at!(3, ANCHORS_FILL), false), (at!(3, ANCHORS_CENTER_IN), false)]),
    found!("Item { id: p; Item { anchors { left: p.left; right: p.right; horizontalCenter: p.left; verticalCenter: p.top; top: p.top } } }", 3 => true, true, &[],
        &[(at!(3, ANCHORS_HORIZONTAL_CENTER), true)]),
    found!("Item { id: p; Item { anchors { left: p.top; right: p.right; horizontalCenter: p.left } } }", 3 => true, true, &[],
        &[(at!(3, ANCHORS_LEFT), false)]),
    // no item has none as its parent
    found!("Item { property Item o: Item { id: a; Item { } anchors.left: a.left } }", 3 => true, true, &[], &[(at!(3, ANCHORS_LEFT), false)]),
];

#[test]
fn flags_faults_and_ignored_anchors(rt: HostRuntime) -> Result<(), Fail> {
    for case in &FOUND {
        assert!(rt; is_so(rt.alloc(), case)?, "{}", case.text);
    }
    Ok(())
}
