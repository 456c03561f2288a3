use input_grab::{Area, Grab, hit};

macro_rules! area {
    ($serial:expr, $left:expr, $top:expr, $right:expr, $bottom:expr) => {
        Area {
            serial: $serial,
            left: $left,
            top: $top,
            right: $right,
            bottom: $bottom,
        }
    };
}

const NONE: [Area; 0] = [];

const TWO: [Area; 2] = [area!(1, 0, 0, 10, 10), area!(2, 5, 5, 15, 15)];

const EMPTY: [Area; 3] = [
    area!(3, 4, 0, 4, 9),
    area!(4, 0, 4, 9, 4),
    area!(5, 9, 0, 2, 9),
];

const WHOLE: [Area; 2] = [
    area!(6, 0, 0, 3, 3),
    area!(7, i64::MIN, i64::MIN, i64::MAX, i64::MAX),
];

struct Hit {
    areas: &'static [Area],
    x: i64,
    y: i64,
    serial: Option<u64>,
}

macro_rules! hit {
    ($areas:ident, $x:expr, $y:expr => $serial:expr) => {
        Hit {
            areas: &$areas,
            x: $x,
            y: $y,
            serial: $serial,
        }
    };
}

static HITS: [Hit; 18] = [
    hit!(NONE, 0, 0 => None),
    hit!(TWO, 0, 0 => Some(1)),
    hit!(TWO, 4, 9 => Some(1)),
    // where both are, the one above
    hit!(TWO, 5, 5 => Some(2)),
    hit!(TWO, 9, 9 => Some(2)),
    hit!(TWO, 14, 14 => Some(2)),
    // at each edge of the first, and then of the second
    hit!(TWO, -1, 0 => None),
    hit!(TWO, 0, -1 => None),
    hit!(TWO, 10, 4 => None),
    hit!(TWO, 4, 10 => None),
    hit!(TWO, 15, 14 => None),
    hit!(TWO, 14, 15 => None),
    hit!(EMPTY, 4, 4 => None),
    // as far as coordinates go
    hit!(WHOLE, 1, 1 => Some(7)),
    hit!(WHOLE, i64::MIN, i64::MIN => Some(7)),
    hit!(WHOLE, i64::MAX - 1, i64::MAX - 1 => Some(7)),
    hit!(WHOLE, i64::MAX, 0 => None),
    hit!(WHOLE, 0, i64::MAX => None),
];

#[test]
fn the_topmost_area_that_has_a_point(rt: HostRuntime) {
    for case in &HITS {
        assert!(rt; hit(case.areas, case.x, case.y) == case.serial);
    }
}

#[derive(Clone, Copy)]
enum Step {
    Press(u64),
    Release,
    DropIf(u64),
}

// A step, the area whose press began or ended with it, and the one that holds a press afterwards.
static PRESSES: [(Step, Option<u64>, Option<u64>); 10] = [
    (Step::Release, None, None),
    (Step::Press(4), Some(4), Some(4)),
    (Step::Press(5), None, Some(4)),
    (Step::Press(4), None, Some(4)),
    (Step::DropIf(5), None, Some(4)),
    (Step::DropIf(4), None, None),
    (Step::DropIf(4), None, None),
    (Step::Press(0), Some(0), Some(0)),
    (Step::Release, Some(0), None),
    (Step::Release, None, None),
];

fn act(grab: &mut Grab, step: Step) -> Option<u64> {
    match step {
        Step::Press(serial) => grab.press(serial).then_some(serial),
        Step::Release => grab.release(),
        Step::DropIf(serial) => {
            grab.drop_if(serial);
            None
        }
    }
}

#[test]
fn one_press_is_held(rt: HostRuntime) {
    let mut grab = Grab::new();
    for (step, answer, held) in PRESSES {
        assert!(rt; act(&mut grab, step) == answer && grab.held() == held);
    }
}
