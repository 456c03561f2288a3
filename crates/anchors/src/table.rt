ghost use Rattle.std.specs.Prelude.{◌≡◌, neg_ℤ, pos, ◌^◌, ◌+ℤ◌, ◌*ℤ◌, ◌≤ℤ◌};
ghost use Rattle.anchors.specs.Table.{near_line, far_line, twice_middle, size_from_near, size_from_far, place_from_far, centered_place, filled_size, place_in, size_in, value_of, answer_of};

use crate::axis::{AxisColumn, AxisRecord, Target};
use crate::row::Row;
use crate::walk::row_of;

/// A place or a size lies outside of the range of an `i32`.
#[derive(Clone, Copy, PartialEq, Eq)]
pub struct Overflow;

/// Where the near line stands if it is tied to this one.
fn near_line(line: i64, axis: &AxisRecord) -> i128
    ensures value { result ≡ near_line line axis.now }
    ensures low { neg_ℤ (pos (2 ^ 64)) ≤ℤ result }
    ensures high { result ≤ℤ pos (2 ^ 64) }
{
    i128::from(line) + i128::from(axis.near_margin)
}

/// Where the far line stands if it is tied to this one.
fn far_line(line: i64, axis: &AxisRecord) -> i128
    ensures value { result ≡ far_line line axis.now }
    ensures low { neg_ℤ (pos (2 ^ 64)) ≤ℤ result }
    ensures high { result ≤ℤ pos (2 ^ 64) }
{
    i128::from(line) - i128::from(axis.far_margin)
}

/// Twice the place of a target's centre line, which is a whole number.
fn twice_middle(target: Target) -> i128
    ensures value { result ≡ twice_middle target }
    ensures low { neg_ℤ (pos (2 ^ 65)) ≤ℤ result }
    ensures high { result ≤ℤ pos (2 ^ 65) }
{
    2 * i128::from(target.place) + i128::from(target.size)
}

/// Twice the place of an item's centre line if it is tied to that of a target.
fn twice_center(target: Target, axis: &AxisRecord) -> i128
    ensures value { result ≡ twice_middle target +ℤ pos 2 *ℤ axis.now.offset }
    ensures low { neg_ℤ (pos (2 ^ 66)) ≤ℤ result }
    ensures high { result ≤ℤ pos (2 ^ 66) }
{
    twice_middle(target) + 2 * i128::from(axis.offset)
}

/// The size of an item whose near line and centre are tied.
fn size_from_near(near: i64, center: Target, axis: &AxisRecord) -> i128
    ensures value { result ≡ size_from_near near center axis.now }
    ensures low { neg_ℤ (pos (2 ^ 67)) ≤ℤ result }
    ensures high { result ≤ℤ pos (2 ^ 67) }
{
    twice_center(center, axis) - 2 * near_line(near, axis)
}

/// The size of an item whose far line and centre are tied.
fn size_from_far(far: i64, center: Target, axis: &AxisRecord) -> i128
    ensures value { result ≡ size_from_far far center axis.now }
    ensures low { neg_ℤ (pos (2 ^ 67)) ≤ℤ result }
    ensures high { result ≤ℤ pos (2 ^ 67) }
{
    2 * far_line(far, axis) - twice_center(center, axis)
}

/// The place of an item whose far line and centre are tied.
fn place_from_far(far: i64, center: Target, axis: &AxisRecord) -> i128
    ensures { result ≡ place_from_far far center axis.now }
{
    far_line(far, axis) - size_from_far(far, center, axis)
}

/// The place of an item whose centre line is tied; a half pixel is dropped.
fn centered_place(target: Target, axis: &AxisRecord) -> i128
    ensures { result ≡ centered_place target axis.now }
{
    let room = twice_middle(target) - i128::from(axis.size);
    room / 2 + i128::from(axis.offset)
}

/// The size of an item that fills a target.
fn filled_size(target: Target, axis: &AxisRecord) -> i128
    ensures { result ≡ filled_size target axis.now }
{
    let after_near = i128::from(target.size) - i128::from(axis.near_margin);
    after_near - i128::from(axis.far_margin)
}

/// The place that a row gives.
fn place_in(row: Row<Target, i64>, axis: &AxisRecord) -> Option<i128>
    ensures { result ≡ place_in row axis.now }
{
    match row {
        Row::Fill(target) => Some(near_line(target.place, axis)),
        Row::Center(target) => Some(centered_place(target, axis)),
        Row::NearAndFar { near, .. } => Some(near_line(near, axis)),
        Row::Near(near) => Some(near_line(near, axis)),
        Row::Far(far) => Some(far_line(far, axis) - i128::from(axis.size)),
        Row::NearAndCenter { near, .. } => Some(near_line(near, axis)),
        Row::FarAndCenter { far, center } => Some(place_from_far(far, center, axis)),
        Row::Free => None,
    }
}

/// The size that a row gives.
fn size_in(row: Row<Target, i64>, axis: &AxisRecord) -> Option<i128>
    ensures { result ≡ size_in row axis.now }
{
    match row {
        Row::Fill(target) => Some(filled_size(target, axis)),
        Row::NearAndFar { near, far } => Some(far_line(far, axis) - near_line(near, axis)),
        Row::NearAndCenter { near, center } => Some(size_from_near(near, center, axis)),
        Row::FarAndCenter { far, center } => Some(size_from_far(far, center, axis)),
        Row::Center(_) | Row::Near(_) | Row::Far(_) | Row::Free => None,
    }
}

/// The place or size of an item on one axis, in pixels. It is `None` exactly where the anchors leave
/// it free, and [`Overflow`] exactly where it lies outside of the range of an `i32`, whatever the
/// other one is. Sums are made without bound.
pub fn anchored(axis: &AxisRecord, column: AxisColumn) -> Result<Option<i32>, Overflow>
    ensures { result ≡ answer_of (value_of axis.now column) }
{
    let row = row_of(axis);
    let value = match column {
        AxisColumn::Place => place_in(row, axis),
        AxisColumn::Size => size_in(row, axis),
    };
    match value {
        None => Ok(None),
        Some(value) if i128::from(i32::MIN) <= value && value <= i128::from(i32::MAX) => {
            Ok(Some(value as i32))
        }
        Some(_) => Err(Overflow),
    }
}
