use item_geometry::{ClipRect, Overflow, RectPart, Rects, Span1, paint_order, rects, union};
use std::test::Fail;

const FILL: u32 = 0xff11_2233;

const EDGE: u32 = 0x8044_5566;

const MOST: i32 = i32::MAX;

// The widest border that leaves an inside of one pixel.
const HALF: i32 = 1_073_741_823;

/// The width, the height and the border of a rectangle, and what it is painted as.
const PAINTED: [(i32, i32, Option<(i32, u32)>, Rects); 14] = [
    (0, 5, None, Rects::Zero),
    (5, 0, Some((1, EDGE)), Rects::Zero),
    (-3, 4, None, Rects::Zero),
    (i32::MIN, i32::MIN, Some((MOST, EDGE)), Rects::Zero),
    (7, 5, None, Rects::One(SEVEN_BY_FIVE)),
    (7, 5, Some((0, EDGE)), Rects::One(SEVEN_BY_FIVE)),
    (7, 5, Some((-1, EDGE)), Rects::One(SEVEN_BY_FIVE)),
    (7, 5, Some((i32::MIN, EDGE)), Rects::One(SEVEN_BY_FIVE)),
    // twice the border is the width, the height, and more than both
    (
        4,
        6,
        Some((2, EDGE)),
        Rects::One(RectPart {
            w: 4,
            h: 6,
            ..ALL_EDGE
        }),
    ),
    (
        6,
        4,
        Some((2, EDGE)),
        Rects::One(RectPart {
            w: 6,
            h: 4,
            ..ALL_EDGE
        }),
    ),
    (
        6,
        4,
        Some((MOST, EDGE)),
        Rects::One(RectPart {
            w: 6,
            h: 4,
            ..ALL_EDGE
        }),
    ),
    (
        MOST,
        MOST,
        Some((1_073_741_824, EDGE)),
        Rects::One(ALL_EDGE),
    ),
    (
        7,
        5,
        Some((2, EDGE)),
        Rects::Five([
            RectPart {
                x: 2,
                y: 2,
                w: 3,
                h: 1,
                argb: FILL,
            },
            RectPart {
                x: 0,
                y: 0,
                w: 7,
                h: 2,
                argb: EDGE,
            },
            RectPart {
                x: 0,
                y: 3,
                w: 7,
                h: 2,
                argb: EDGE,
            },
            RectPart {
                x: 0,
                y: 2,
                w: 2,
                h: 1,
                argb: EDGE,
            },
            RectPart {
                x: 5,
                y: 2,
                w: 2,
                h: 1,
                argb: EDGE,
            },
        ]),
    ),
    (
        MOST,
        MOST,
        Some((HALF, EDGE)),
        Rects::Five([
            RectPart {
                x: HALF,
                y: HALF,
                w: 1,
                h: 1,
                argb: FILL,
            },
            RectPart {
                x: 0,
                y: 0,
                w: MOST,
                h: HALF,
                argb: EDGE,
            },
            RectPart {
                x: 0,
                y: 1_073_741_824,
                w: MOST,
                h: HALF,
                argb: EDGE,
            },
            RectPart {
                x: 0,
                y: HALF,
                w: HALF,
                h: 1,
                argb: EDGE,
            },
            RectPart {
                x: 1_073_741_824,
                y: HALF,
                w: HALF,
                h: 1,
                argb: EDGE,
            },
        ]),
    ),
];

const SEVEN_BY_FIVE: RectPart = RectPart {
    x: 0,
    y: 0,
    w: 7,
    h: 5,
    argb: FILL,
};

const ALL_EDGE: RectPart = RectPart {
    x: 0,
    y: 0,
    w: MOST,
    h: MOST,
    argb: EDGE,
};

fn is_sent<T: Send>(_value: &T) {}

#[test]
fn parts_of_a_rectangle(rt: HostRuntime) {
    for (width, height, border, want) in PAINTED {
        let got = rects(width, height, FILL, border);
        is_sent(&got);
        assert!(rt; got == want);
    }
}

/// The place and the length of two spans, and of the one that has both, if its length is an `i32`.
const SPANS: [((i32, i32), (i32, i32), Option<(i32, i32)>); 12] = [
    ((0, 10), (5, 10), Some((0, 15))),
    ((5, 10), (0, 10), Some((0, 15))),
    ((0, 20), (5, 3), Some((0, 20))),
    ((-7, 2), (-30, 4), Some((-30, 25))),
    // of a length below 0
    ((0, 3), (10, -4), Some((0, 6))),
    ((5, -2), (7, -9), Some((5, -2))),
    (
        (i32::MIN, i32::MIN),
        (i32::MIN, i32::MIN),
        Some((i32::MIN, i32::MIN)),
    ),
    // whose end is no `i32`
    ((MOST, MOST), (MOST, 0), Some((MOST, MOST))),
    // of the greatest length, and one pixel more
    ((i32::MIN, 0), (-1, 0), Some((i32::MIN, MOST))),
    ((i32::MIN, 0), (0, 0), None),
    ((0, MOST), (1, MOST), None),
    ((i32::MIN, 0), (MOST, MOST), None),
];

#[test]
fn a_span_that_has_two(rt: HostRuntime) {
    for (a, b, both) in SPANS {
        let want = match both {
            Some((at, len)) => Ok(Span1 { at, len }),
            None => Err(Overflow),
        };
        let got = union(Span1 { at: a.0, len: a.1 }, Span1 { at: b.0, len: b.1 });
        assert!(rt; got == want);
    }
}

/// The z of items, how many are under their parent's content, and the order of painting.
const ORDERS: [(&[i32], usize, &[usize]); 6] = [
    (&[], 0, &[]),
    (&[0, 0, 0, 0], 0, &[0, 1, 2, 3]),
    (&[3, 2, 1], 0, &[2, 1, 0]),
    (&[1, -1, 0, -1, 1], 2, &[1, 3, 2, 0, 4]),
    (&[MOST, i32::MIN], 1, &[1, 0]),
    (&[-5], 1, &[0]),
];

#[test]
fn an_order_of_painting(rt: HostRuntime) -> Result<(), Fail> {
    let mut out = Vec::new(rt.alloc());
    for (z, under, want) in ORDERS {
        let count = paint_order(z, &mut out)?;
        assert!(rt; count == under && out.as_slice() == want);
    }
    Ok(())
}

/// Two rectangles by their edges, a point, and whether both have it.
const CUTS: [([i64; 4], [i64; 4], (i64, i64), bool); 6] = [
    ([0, 0, 10, 10], [5, 5, 20, 20], (5, 9), true),
    ([0, 0, 10, 10], [5, 5, 20, 20], (4, 9), false),
    ([0, 0, 10, 10], [5, 5, 20, 20], (9, 10), false),
    // they do not meet
    ([0, 0, 5, 5], [5, 0, 9, 5], (5, 2), false),
    // as far as coordinates go
    (
        [i64::MIN, i64::MIN, i64::MAX, i64::MAX],
        [-1, i64::MIN, 0, i64::MAX],
        (-1, 7),
        true,
    ),
    ([3, 0, 3, 9], [0, 0, 9, 9], (3, 3), false),
];

#[test]
fn what_two_rectangles_have(rt: HostRuntime) {
    for (a, b, (x, y), both) in CUTS {
        let [left, top, right, bottom] = a;
        let one = ClipRect {
            left,
            top,
            right,
            bottom,
        };
        let [left, top, right, bottom] = b;
        let other = ClipRect {
            left,
            top,
            right,
            bottom,
        };
        assert!(rt; one.intersection(other).has_point(x, y) == both);
    }
}
