//! When an anchor that counts for nothing is told: once, and again where it has counted in between.

use crate::makes::{Case, is_so};
use crate::steps::{Find, Step};
use qml_ast::{Place, Side};
use std::test::Fail;
use type_table::item_slots::{ANCHORS_FILL, ANCHORS_HORIZONTAL_CENTER, ANCHORS_LEFT, ANCHORS_TOP};

/// An anchor that is told, and whether it is the centre beside two tied lines.
type Told = (Place, bool);

/// The root's `n`. The root is of serial 2; its first declared property is the slot 37. Its children are 3, with 4 in it,
/// and 5.
const N: Place = Place {
    serial: 2,
    slot: 37,
    side: Side::Shown,
};

/// What the last item of the root has beside its anchors, and which anchors are told at first, where the root's `n` is
/// 0, and then at each number that `n` is set to.
macro_rules! case {
    ($anchors:literal => $first:expr, &[$(($number:literal, $told:expr)),+]) => {
        Case {
            text: concat!(
                "Item { id: r; property int n: 0; Item { id: a; Item { id: b } } Item { anchors { ",
                $anchors,
                " } } }"
            ),
            steps: &[
                Step::Settle(&[Find::Ignored($first)]),
                $(Step::Write(N, $number, &[Find::Ignored($told)])),+
            ],
        }
    };
}

macro_rules! at {
    ($slot:expr) => {
        Place {
            serial: 5,
            slot: $slot,
            side: Side::Shown,
        }
    };
}

const FILL: Told = (at!(ANCHORS_FILL), false);

const LEFT: Told = (at!(ANCHORS_LEFT), false);

const TOP: Told = (at!(ANCHORS_TOP), false);

const THIRD: Told = (at!(ANCHORS_HORIZONTAL_CENTER), true);

const CENTER: Told = (at!(ANCHORS_HORIZONTAL_CENTER), false);

static CASES: [Case; 12] = [
    // nothing that it reads is written
    case!("fill: b" => &[FILL], &[(1, &[]), (2, &[])]),
    // another target that counts for nothing; one that counts; none at all
    case!("fill: r.n == 1 ? r.parent : r.n == 3 ? a : r.n == 6 ? null : b" => &[FILL],
        &[(1, &[]), (2, &[]), (3, &[]), (4, &[FILL]), (5, &[]), (6, &[]), (7, &[FILL])]),
    case!("left: r.n == 1 ? b.left : r.n == 3 ? a.right : r.n == 6 ? undefined : a.bottom" => &[LEFT],
        &[(1, &[]), (2, &[]), (3, &[]), (4, &[LEFT]), (5, &[]), (6, &[]), (7, &[LEFT])]),
    // one that counts at first
    case!("fill: r.n % 2 == 0 ? parent : b" => &[], &[(1, &[FILL]), (3, &[]), (4, &[]), (5, &[FILL])]),
    // two, in the order of places
    case!("top: r.n == 1 ? a.top : a.left; left: r.n > 0 ? a.left : a.top" => &[LEFT, TOP],
        &[(1, &[]), (2, &[TOP]), (0, &[LEFT]), (3, &[]), (1, &[]), (0, &[LEFT, TOP])]),
    // a target that is gone to a fault is still the last one
    case!("fill: r.n == 1 ? 5 : r.n == 2 ? 1 / 0 : b" => &[FILL], &[(1, &[]), (2, &[]), (3, &[])]),
    case!("fill: r.n == 1 ? 5 : r.n == 2 ? b : parent" => &[], &[(1, &[]), (2, &[FILL]), (1, &[]), (2, &[])]),
    // the centre beside two tied lines
    case!("left: a.left; right: r.n == 1 ? undefined : a.right; horizontalCenter: a.left" => &[THIRD], &[(1, &[]), (2, &[THIRD]), (3, &[])]),
    // beside a line that itself counts for nothing it counts
    case!("left: r.n == 1 ? a.left : a.top; right: a.right; horizontalCenter: a.left" => &[LEFT], &[(1, &[THIRD]), (2, &[LEFT]), (3, &[])]),
    // for one reason and then for the other
    case!("left: a.left; right: a.right; horizontalCenter: r.n == 1 ? a.left : a.top" => &[CENTER], &[(1, &[]), (2, &[])]),
    case!("left: a.left; right: a.right; horizontalCenter: r.n == 1 ? a.top : a.left" => &[THIRD], &[(1, &[]), (2, &[])]),
    // beside `fill`, which makes it count for nothing, it is judged by itself
    case!("fill: r.n == 1 ? null : parent; left: r.n == 2 ? parent.left : parent.top" => &[LEFT], &[(1, &[]), (2, &[]), (3, &[LEFT])]),
];

#[test]
fn an_ignored_anchor_is_told_when_it_comes_to_be(rt: HostRuntime) -> Result<(), Fail> {
    for case in &CASES {
        assert!(rt; is_so(rt.alloc(), case)?, "{}", case.text);
    }
    Ok(())
}
