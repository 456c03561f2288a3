//! What the machine runs by itself: signals and single handlers.

use crate::worlds::{NONE, Step, passes};
use signals::Ran;
use std::test::Fail;

/// The document of these calls. The first two handlers have an argument.
const TEXT: &str = "Item { property int x2: 1; signal hit(int n); signal Hit(int n, int m); \
     onHit: console.log('hit', n); onX2Changed: console.log('x2', x2); Component.onCompleted: console.log('done') }";

/// What is done, and what is noted.
const ROWS: &[(Step, &str)] = &[
    (Step::Emit(0, 1, &[7], Ran::Ended), "qml: hit 7\n"),
    (Step::Emit(0, 1, &[-1], Ran::Ended), "qml: hit -1\n"),
    // a single handler
    (Step::Exec(0, &[5], Ran::Ended), "qml: hit 5\n"),
    (Step::Exec(1, &[5], Ran::Ended), "qml: x2 1\n"),
    (Step::Exec(2, &[5], Ran::Ended), "qml: done\n"),
    (Step::Exec(3, &[5], Ran::Ended), ""),
];

#[test]
fn signals_are_emitted_and_single_handlers_run(rt: HostRuntime) -> Result<(), Fail> {
    for (step, notes) in ROWS {
        let steps = [Step::Notes("qml: done\n"), *step, Step::Notes(notes)];
        assert!(rt; passes(rt.alloc(), NONE, TEXT, &steps)?, "{notes}");
    }
    Ok(())
}
