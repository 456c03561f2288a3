ghost use Rattle.std.specs.Prelude.{◌≡◌, ◌^◌, pos, neg_ℤ, ◌-ℤ◌, ◌≤ℤ◌, map, length, if◌then◌else◌};
ghost use Rattle.positioners.specs.Axis.{along};
ghost use Rattle.positioners.specs.Layout.{extent_of, offsets_of};

use crate::axis::Axis;
use crate::lengths::capped;

/// The exact offset of a child whose plain offset and length these are, among children of that
/// extent.
fn directed(offset: i128, length: i32, extent: i128, reversed: bool) -> i128
    requires offset_low { neg_ℤ (pos (2 ^ 96)) ≤ℤ offset }
    requires offset_high { offset ≤ℤ pos (2 ^ 96) }
    requires extent_low { neg_ℤ (pos (2 ^ 97)) ≤ℤ extent }
    requires extent_high { extent ≤ℤ pos (2 ^ 97) }
    ensures { result ≡ (if reversed then extent -ℤ offset -ℤ length else offset) }
{
    if reversed {
        extent - offset - i128::from(length)
    } else {
        offset
    }
}

/// Writes the offsets of children of that extent along the axis, in order or from the other end.
pub(crate) fn write_offsets(
    axis: Axis,
    sizes: &[(i32, i32)],
    spacing: i32,
    extent: i128,
    reversed: bool,
    out: &mut [i32],
)
    requires places { length out.old ≡ length sizes.now }
    requires extent { extent ≡ extent_of spacing (map (along axis) sizes.now) }
    requires extent_low { neg_ℤ (pos (2 ^ 97)) ≤ℤ extent }
    requires extent_high { extent ≤ℤ pos (2 ^ 97) }
    ensures { out.new ≡ offsets_of reversed spacing (map (along axis) sizes.now) }
{
    let mut offset = 0;
    for (child, size) in sizes.iter().enumerate() {
        let length = axis.along(*size);
        out[child] = capped(directed(offset, length, extent, reversed));
        offset += i128::from(length) + i128::from(spacing);
    }
}
