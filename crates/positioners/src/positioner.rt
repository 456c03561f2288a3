ghost use Rattle.std.specs.Prelude.{◌≡◌, ◌<◌, map, length, false, OnOk, IfOk, OnErr, vec_capacity};
ghost use Rattle.positioners.specs.Axis.{width_of, height_of, along, across};
ghost use Rattle.positioners.specs.Layout.{offsets_of, implicit_length, greatest_of};

use crate::axis::Axis;
use crate::lengths::{capped, extent, greatest};
use crate::offsets::write_offsets;
use std::alloc::AllocError;

/// Writes the offsets of children along the axis, and answers the sizes along and across it that
/// they make.
fn lay_out(
    axis: Axis,
    sizes: &[(i32, i32)],
    spacing: i32,
    reversed: bool,
    out: &mut Vec<i32>,
) -> Result<(i32, i32), AllocError>
    ensures offsets { OnOk result (out.new.items
        ≡ offsets_of reversed spacing (map (along axis) sizes.now)) }
    ensures along { IfOk result (λ size. size.0
        ≡ implicit_length spacing (map (along axis) sizes.now)) }
    ensures across { IfOk result (λ size. size.1 ≡ greatest_of (map (across axis) sizes.now)) }
    ensures err { OnErr result (out.new.items ≡ out.old.items) }
    ensures no_room { OnErr result (vec_capacity out.old < length sizes.now) }
{
    out.resize(sizes.len(), 0)?;
    let extent = extent(axis, sizes, spacing);
    write_offsets(axis, sizes, spacing, extent, reversed, out);
    Ok((capped(extent), greatest(axis, sizes)))
}

/// Lays out a row of children of these widths and heights, in pixels, from left to right or from
/// right to left, with `spacing` between one and the next. The x of each child, in order, takes the
/// place of what was in `out`; the answer is the row's implicit width and height. Each x and the
/// width is one sum, made without bound and then brought to the nearest `i32`.
///
/// The only error is that there is no memory for the offsets; then `out` is as it was.
pub fn row(
    sizes: &[(i32, i32)],
    spacing: i32,
    right_to_left: bool,
    out: &mut Vec<i32>,
) -> Result<(i32, i32), AllocError>
    ensures offsets { OnOk result (out.new.items
        ≡ offsets_of right_to_left spacing (map width_of sizes.now)) }
    ensures width { IfOk result (λ size. size.0
        ≡ implicit_length spacing (map width_of sizes.now)) }
    ensures height { IfOk result (λ size. size.1 ≡ greatest_of (map height_of sizes.now)) }
    ensures err { OnErr result (out.new.items ≡ out.old.items) }
    ensures no_room { OnErr result (vec_capacity out.old < length sizes.now) }
{
    lay_out(Axis::Horizontal, sizes, spacing, right_to_left, out)
}

/// Lays out a column of children of these widths and heights, in pixels, downwards, with `spacing`
/// between one and the next. The y of each child, in order, takes the place of what was in `out`; the
/// answer is the column's implicit width and height. Each y and the height is one sum, made without
/// bound and then brought to the nearest `i32`.
///
/// The only error is that there is no memory for the offsets; then `out` is as it was.
pub fn column(
    sizes: &[(i32, i32)],
    spacing: i32,
    out: &mut Vec<i32>,
) -> Result<(i32, i32), AllocError>
    ensures offsets { OnOk result (out.new.items
        ≡ offsets_of false spacing (map height_of sizes.now)) }
    ensures width { IfOk result (λ size. size.0 ≡ greatest_of (map width_of sizes.now)) }
    ensures height { IfOk result (λ size. size.1
        ≡ implicit_length spacing (map height_of sizes.now)) }
    ensures err { OnErr result (out.new.items ≡ out.old.items) }
    ensures no_room { OnErr result (vec_capacity out.old < length sizes.now) }
{
    let (height, width) = lay_out(Axis::Vertical, sizes, spacing, false, out)?;
    Ok((width, height))
}
