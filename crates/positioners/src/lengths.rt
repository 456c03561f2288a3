ghost use Rattle.std.specs.Prelude.{◌≡◌, ◌^◌, pos, neg_ℤ, ◌≤ℤ◌, map};
ghost use Rattle.positioners.specs.Axis.{along, across};
ghost use Rattle.positioners.specs.Layout.{span_of, extent_of, greatest_of, capped};

use crate::axis::Axis;

/// The exact sum as an `i32`: the nearest number of its range.
pub(crate) fn capped(sum: i128) -> i32
    ensures { result ≡ capped sum }
{
    sum.clamp(i128::from(i32::MIN), i128::from(i32::MAX)) as i32
}

/// How far children reach along the axis, with the spacing after each.
fn span(axis: Axis, sizes: &[(i32, i32)], spacing: i32) -> i128
    ensures value { result ≡ span_of spacing (map (along axis) sizes.now) }
    ensures low { neg_ℤ (pos (2 ^ 96)) ≤ℤ result }
    ensures high { result ≤ℤ pos (2 ^ 96) }
{
    let mut far = 0;
    for size in sizes {
        far += i128::from(axis.along(*size)) + i128::from(spacing);
    }
    far
}

/// Where the last child ends, or 0 where there is none.
pub(crate) fn extent(axis: Axis, sizes: &[(i32, i32)], spacing: i32) -> i128
    ensures value { result ≡ extent_of spacing (map (along axis) sizes.now) }
    ensures low { neg_ℤ (pos (2 ^ 97)) ≤ℤ result }
    ensures high { result ≤ℤ pos (2 ^ 97) }
{
    match sizes.split_last() {
        Some((last, before)) => span(axis, before, spacing) + i128::from(axis.along(*last)),
        None => 0,
    }
}

/// The greatest of the lengths across the axis, or 0 where there is none.
pub(crate) fn greatest(axis: Axis, sizes: &[(i32, i32)]) -> i32
    ensures { result ≡ greatest_of (map (across axis) sizes.now) }
{
    match sizes.split_first() {
        Some((first, rest)) => {
            let mut greatest = axis.across(*first);
            for size in rest {
                greatest = greatest.max(axis.across(*size));
            }
            greatest
        }
        None => 0,
    }
}
