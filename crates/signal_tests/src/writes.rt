//! Writes of the machine and of handlers, and what they leave.

use crate::worlds::{FIRST, NONE, Step, passes, passes_within};
use qml_ast::{Place, Side};
use signals::Ran;
use std::test::Fail;
use type_table::item_slots::WIDTH;

/// A document, the place that is written, and the number; how the handlers end, what is noted, which number the place
/// holds then, how many statements are left, and whether handlers are dropped.
struct Written {
    text: &'static str,
    place: Place,
    number: i32,
    ran: Ran,
    notes: &'static str,
    held: i32,
    left: u32,
    dropped: bool,
}

const SET_WIDTH: Place = Place {
    serial: 2,
    slot: WIDTH,
    side: Side::Set,
};

macro_rules! written {
    ($text:literal, $place:expr, $number:literal => $ran:expr, $notes:literal, $held:literal, $left:literal, $dropped:literal) => {
        Written {
            text: $text,
            place: $place,
            number: $number,
            ran: $ran,
            notes: $notes,
            held: $held,
            left: $left,
            dropped: $dropped,
        }
    };
}

static WRITTEN: [Written; 8] = [
    // what is bound to it is up to date before the handlers run
    written!("Item { property int n: 1 + 1; property int m: n + 1; onMChanged: console.log('m', m); onNChanged: console.log('n', n, m) }",
        FIRST, 5 => Ran::Ended, "qml: n 5 6\nqml: m 6\n", 5, 99_998, false),
    // a slot of which what is set and what is shown are two
    written!("Item { width: 1 + 1; onWidthChanged: console.log(width) }", SET_WIDTH, 7 => Ran::Ended, "qml: 7\n", 7, 99_999, false),
    // an equal value is no change, and unbinds the slot
    written!("Item { property int n: 2 + 3; onNChanged: console.log('never') }", FIRST, 5 => Ran::Ended, "", 5, 100_000, false),
    // the machine writes what is read only to documents
    written!("Item { readonly property int n: 1; onNChanged: console.log(n) }", FIRST, 4 => Ran::Ended, "qml: 4\n", 4, 99_999, false),
    // loops and then faults are noted before the handlers run
    written!("Item { property int n: 1; property int q: 6 / n; property int l: n == 0 ? l : 3; onNChanged: console.log(q, l) }",
        FIRST, 0 => Ran::Ended, "Main.qml:1:63: Binding loop detected for property \"l\"\nMain.qml:1:40: evaluation fault: zero divisor\nqml: 6 3\n", 0, 99_999, false),
    // a limit ends the handlers, and what was written stays
    written!("Item { property int n: 0; onNChanged: while (true) ; onNChanged: console.log('never') }",
        FIRST, 1 => Ran::Budget, "Main.qml:1:27: statement limit\n", 1, 0, true),
    written!("Item { property int n: 0; onNChanged: if (n < 64) n = n + 1 }", FIRST, 1 => Ran::Ended, "", 64, 99_873, false),
    written!("Item { property int n: 0; onNChanged: n = n + 1 }", FIRST, 1 => Ran::TooDeep, "Main.qml:1:27: handler limit\n", 65, 99_936, true),
];

#[test]
fn the_machine_writes(rt: HostRuntime) -> Result<(), Fail> {
    for case in &WRITTEN {
        let steps = [
            Step::Notes(""),
            Step::Write(case.place, case.number, case.ran),
            Step::Notes(case.notes),
            Step::Holds(case.place, case.held, false),
            Step::Left(case.left, case.dropped),
        ];
        assert!(rt;
            passes(rt.alloc(), NONE, case.text, &steps)?,
            "{}",
            case.text
        );
    }
    Ok(())
}

/// A statement that a handler runs; what is noted, which number the property `n` holds then, and whether it is still
/// bound to what it was bound to.
const ASSIGNED: &[(&str, &str, i32, bool)] = &[
    ("n = 4", "qml: n 4\n", 4, false),
    ("n = 2", "", 2, false),
    ("n += 5", "qml: n 7\n", 7, false),
    // a fault leaves the value, and what the slot is bound to
    (
        "n = 'a'",
        "Main.qml:2:1: evaluation fault: wrong kind\n",
        2,
        true,
    ),
    (
        "n = undefined",
        "Main.qml:2:1: evaluation fault: wrong kind\n",
        2,
        true,
    ),
    (
        "n += 'a'",
        "Main.qml:2:1: evaluation fault: wrong kind\n",
        2,
        true,
    ),
    (
        "n = 1 / 0",
        "Main.qml:2:1: evaluation fault: zero divisor\n",
        2,
        true,
    ),
    (
        "fixed = 4",
        "Main.qml:2:1: evaluation fault: read only\n",
        2,
        true,
    ),
    (
        "fixed = 3",
        "Main.qml:2:1: evaluation fault: read only\n",
        2,
        true,
    ),
    (
        "fixed++",
        "Main.qml:2:1: evaluation fault: read only\n",
        2,
        true,
    ),
    (
        "parent.width = 4",
        "Main.qml:2:1: evaluation fault: read only\n",
        2,
        true,
    ),
    // what came before it stands
    (
        "{ n = 5; fixed = 4; n = 6 }",
        "qml: n 5\nMain.qml:2:1: evaluation fault: read only\n",
        5,
        false,
    ),
    (
        "{ n = 5; n = 'a'; n = 6 }",
        "qml: n 5\nMain.qml:2:1: evaluation fault: wrong kind\n",
        5,
        false,
    ),
];

/// What stands before and behind the statement, whose handler is in the second line and the fourth of its object.
const HANDLER: (&str, &str) = (
    "Item { property int n: 1 + 1; readonly property int fixed: 3; signal go; onNChanged: console.log('n', n); \
    onFixedChanged: console.log('fixed'); onWidthChanged: console.log('width');\nonGo: ",
    " }",
);

#[test]
fn handlers_write(rt: HostRuntime) -> Result<(), Fail> {
    for (statement, notes, number, bound) in ASSIGNED {
        let steps = [
            Step::Exec(3, &[], Ran::Ended),
            Step::Notes(notes),
            Step::Holds(FIRST, *number, *bound),
        ];
        assert!(rt;
            passes_within(rt.alloc(), HANDLER, statement, &steps)?,
            "{statement}"
        );
    }
    Ok(())
}
