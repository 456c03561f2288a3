use positioners::{column, row};
use std::test::Fail;

struct Case {
    sizes: &'static [(i32, i32)],
    spacing: i32,
    right_to_left: bool,
    offsets: &'static [i32],
    size: (i32, i32),
}

macro_rules! case {
    ($sizes:expr, $spacing:expr => $offsets:expr, $size:expr) => {
        case!($sizes, $spacing, false => $offsets, $size)
    };
    ($sizes:expr, $spacing:expr, $right_to_left:expr => $offsets:expr, $size:expr) => {
        Case {
            sizes: &$sizes,
            spacing: $spacing,
            right_to_left: $right_to_left,
            offsets: &$offsets,
            size: $size,
        }
    };
}

static ROWS: [Case; 13] = [
    case!([], 7 => [], (0, 0)),
    case!([], 7, true => [], (0, 0)),
    case!([(8, 3)], 7 => [0], (8, 3)),
    case!([(8, 3)], 7, true => [0], (8, 3)),
    case!([(-8, -3)], 7 => [0], (-8, -3)),
    case!([(5, 1), (5, 1), (5, 1)], 1 => [0, 6, 12], (17, 1)),
    case!([(5, 1), (5, 1), (5, 1)], 1, true => [12, 6, 0], (17, 1)),
    case!([(5, 1), (5, 1), (5, 1)], -5 => [0, 0, 0], (5, 1)),
    case!([(5, 4), (-2, 9), (3, -7)], 1 => [0, 6, 5], (8, 9)),
    case!([(5, 4), (-2, 9), (3, -7)], 1, true => [3, 4, 0], (8, 9)),
    // each sum is capped once: 2147483647 and 4294967294, and 2147483646 at the end
    case!(
        [(2147483647, -5), (2147483647, -3), (-2147483648, -4)], 0
        => [0, 2147483647, 2147483647], (2147483646, -3)
    ),
    case!(
        [(2147483647, -5), (2147483647, -3), (-2147483648, -4)], 0, true
        => [-1, -2147483648, 0], (2147483646, -3)
    ),
    case!(
        [(2147483647, -5), (2147483647, -3), (-2147483648, -4)], -2147483648
        => [0, -1, -2], (-2147483648, -3)
    ),
];

static COLUMNS: [Case; 4] = [
    case!([], 4 => [], (0, 0)),
    case!([(8, 3)], 4 => [0], (8, 3)),
    case!([(40, 25), (40, 25), (40, 25)], 4 => [0, 29, 58], (40, 83)),
    case!([(1, 2), (-3, 0), (2, -6)], 1 => [0, 3, 4], (2, -2)),
];

#[test]
fn rows(rt: HostRuntime) -> Result<(), Fail> {
    let mut out = vec![in rt.alloc(); 4, 3, 2, 1]?;
    for case in &ROWS {
        let size = row(case.sizes, case.spacing, case.right_to_left, &mut out)?;
        assert!(rt; size == case.size && out.as_slice() == case.offsets);
    }
    Ok(())
}

#[test]
fn columns(rt: HostRuntime) -> Result<(), Fail> {
    let mut out = vec![in rt.alloc(); 4, 3, 2, 1]?;
    for case in &COLUMNS {
        let size = column(case.sizes, case.spacing, &mut out)?;
        assert!(rt; size == case.size && out.as_slice() == case.offsets);
    }
    Ok(())
}
