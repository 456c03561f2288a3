use anchors::{
    Answer, Asked, AxisColumn, AxisRecord, Found, Overflow, Row, Step, Target, anchored, next_step,
    row_of,
};

const FREE: AxisRecord = AxisRecord {
    fill: None,
    center_in: None,
    near: None,
    far: None,
    center: None,
    near_margin: 0,
    far_margin: 0,
    offset: 0,
    size: 0,
};

/// The target's place and size, the item's size and its offset, and the place.
const CENTRED: [(i64, i64, i32, i32, i32); 7] = [
    // a row of 128 by 25 on a page of 320 by 240
    (0, 320, 128, 0, 96),
    (0, 240, 25, 0, 107),
    // half a pixel is dropped, on either side of 0
    (0, 10, 3, 0, 3),
    (0, 10, 13, 0, -1),
    (20, 5, 2, 0, 21),
    // and before the offset counts
    (0, 10, 13, 5, 4),
    (20, 5, 2, -4, 17),
];

#[test]
fn a_centred_item(rt: HostRuntime) {
    for (target_place, target_size, size, offset, place) in CENTRED {
        let around = Some(Target {
            place: target_place,
            size: target_size,
        });
        let axis = AxisRecord {
            offset,
            size,
            near_margin: 7,
            far_margin: 7,
            ..FREE
        };
        let center_in = AxisRecord {
            center_in: around,
            ..axis
        };
        let center = AxisRecord {
            center: around,
            ..axis
        };
        assert!(rt;
            anchored(&center_in, AxisColumn::Place) == Ok(Some(place))
                && anchored(&center, AxisColumn::Place) == Ok(Some(place))
                && anchored(&center_in, AxisColumn::Size) == Ok(None)
                && anchored(&center, AxisColumn::Size) == Ok(None)
        );
    }
}

/// The anchors of an item with margins of 1 and 2, an offset of 3 and a size of 8.
struct Tied {
    fill: Option<Target>,
    center_in: Option<Target>,
    near: Option<i64>,
    far: Option<i64>,
    center: Option<Target>,
    place: Option<i32>,
    size: Option<i32>,
    /// How many anchors are asked for the row.
    asked: usize,
}

const UNTIED: Tied = Tied {
    fill: None,
    center_in: None,
    near: None,
    far: None,
    center: None,
    place: None,
    size: None,
    asked: 5,
};

const WIDE: Option<Target> = Some(Target { place: 5, size: 30 });

const SMALL: Option<Target> = Some(Target { place: 0, size: 10 });

const MIDDLE: Option<Target> = Some(Target {
    place: 20,
    size: 11,
});

const TIED: [Tied; 9] = [
    Tied {
        fill: WIDE,
        place: Some(6),
        size: Some(27),
        asked: 1,
        ..UNTIED
    },
    Tied {
        near: Some(10),
        place: Some(11),
        ..UNTIED
    },
    Tied {
        far: Some(50),
        place: Some(40),
        ..UNTIED
    },
    Tied {
        near: Some(10),
        far: Some(50),
        place: Some(11),
        size: Some(37),
        asked: 4,
        ..UNTIED
    },
    Tied {
        near: Some(10),
        center: MIDDLE,
        place: Some(11),
        size: Some(35),
        ..UNTIED
    },
    Tied {
        far: Some(50),
        center: MIDDLE,
        place: Some(9),
        size: Some(39),
        ..UNTIED
    },
    // fill wins over centerIn, which wins over lines, which win over the centre between them
    Tied {
        fill: WIDE,
        center_in: SMALL,
        near: Some(1),
        far: Some(2),
        center: MIDDLE,
        place: Some(6),
        size: Some(27),
        asked: 1,
    },
    Tied {
        center_in: SMALL,
        near: Some(1),
        far: Some(2),
        center: MIDDLE,
        place: Some(4),
        asked: 2,
        ..UNTIED
    },
    Tied {
        near: Some(10),
        far: Some(50),
        center: MIDDLE,
        place: Some(11),
        size: Some(37),
        asked: 4,
        ..UNTIED
    },
];

/// The row to which one comes who asks a record for what is asked next, and how many were asked.
fn asked_row(axis: &AxisRecord) -> (usize, Option<Row<Target, i64>>) {
    let mut found = Found::nothing();
    for count in 0..6 {
        match next_step(&found) {
            Step::Row(row) => return (count, Some(row)),
            Step::Ask(Asked::Fill) => found.fill = Answer::new(axis.fill),
            Step::Ask(Asked::CenterIn) => found.center_in = Answer::new(axis.center_in),
            Step::Ask(Asked::Near) => found.near = Answer::new(axis.near),
            Step::Ask(Asked::Far) => found.far = Answer::new(axis.far),
            Step::Ask(Asked::Center) => found.center = Answer::new(axis.center),
        }
    }
    (6, None)
}

/// Both columns of a record are these, and its row, which has a size where one is given, is known once
/// so many anchors were asked.
fn is_as(axis: &AxisRecord, want: &Tied) -> bool {
    let (asked, row) = asked_row(axis);
    let sized = want.size.is_some();
    anchored(axis, AxisColumn::Place) == Ok(want.place)
        && anchored(axis, AxisColumn::Size) == Ok(want.size)
        && asked == want.asked
        && row.is_some_and(|row| row.gives_size() == sized)
        && row_of(axis).gives_size() == sized
}

#[test]
fn each_row(rt: HostRuntime) {
    for want in &TIED {
        let axis = AxisRecord {
            fill: want.fill,
            center_in: want.center_in,
            near: want.near,
            far: want.far,
            center: want.center,
            near_margin: 1,
            far_margin: 2,
            offset: 3,
            size: 8,
        };
        assert!(rt; is_as(&axis, want));
    }
}

const LEAST: i64 = -2147483648;

const GREATEST: i64 = 2147483647;

type Column = Result<Option<i32>, Overflow>;

/// Both lines and both margins, and the place and the size.
const ENDS: [(i64, i64, i32, i32, Column, Column); 7] = [
    (GREATEST, GREATEST, 0, 0, Ok(Some(i32::MAX)), Ok(Some(0))),
    (GREATEST, GREATEST, 1, 0, Err(Overflow), Ok(Some(-1))),
    (LEAST, LEAST, 0, 0, Ok(Some(i32::MIN)), Ok(Some(0))),
    (LEAST, LEAST, -1, 0, Err(Overflow), Ok(Some(1))),
    // an overflow of one column leaves the other
    (LEAST, GREATEST, 0, 0, Ok(Some(i32::MIN)), Err(Overflow)),
    (i64::MAX, i64::MAX, 1, 2, Err(Overflow), Ok(Some(-3))),
    (
        i64::MIN,
        i64::MAX,
        i32::MIN,
        i32::MIN,
        Err(Overflow),
        Err(Overflow),
    ),
];

#[test]
fn ends_of_the_range(rt: HostRuntime) {
    for (near, far, near_margin, far_margin, place, size) in ENDS {
        let axis = AxisRecord {
            near: Some(near),
            far: Some(far),
            near_margin,
            far_margin,
            ..FREE
        };
        assert!(rt;
            anchored(&axis, AxisColumn::Place) == place && anchored(&axis, AxisColumn::Size) == size
        );
    }
}
