ghost use Rattle.std.specs.Prelude.{◌≡◌, ◌≤◌, pos, ◌<ℤ◌, ◌≤ℤ◌, int_lt, [], length, count_by, take, drop, All, OnErr, OnOk, IfOk, IsPermutation, IsSorted, vec_capacity};
ghost use Rattle.std.specs.List.{range_with_len};
ghost use Rattle.item_geometry.specs.PaintOrder.{z_of, items_of, paint_cmp, painting_order};

use std::alloc::AllocError;

/// Makes `out` the numbers from 0 up to but not `count`, for which it has room.
fn number(out: &mut Vec<usize>, count: usize)
    requires { count ≤ vec_capacity out.old }
    ensures { out.new.items ≡ range_with_len 0 count }
{
    out.clear();
    for item in 0..count {
        match out.push(item) {
            Ok(()) => {}
            Err(_) => unreachable!(),
        }
    }
}

/// The z of an item, or 0 where there is no such item.
fn z_at(z: &[i32], item: usize) -> i32
    ensures { result ≡ z_of z.now item }
{
    z.get(item).copied().unwrap_or(0)
}

/// The order in which items are painted that have these z, as their numbers from 0 on: by rising z, and
/// items of one z in the order of their appearance. `out` is that order, in place of what it had, and
/// the answer is how many items have a z below 0, which are painted under their parent's own content
/// and stand first. The only error is that memory ran out, and then `out` is as before.
pub fn paint_order(z: &[i32], out: &mut Vec<usize>) -> Result<usize, AllocError>
    ensures order { OnOk result (out.new.items ≡ painting_order z.now) }

    // Each item once, none before one that is painted earlier.
    ensures all { OnOk result (IsPermutation (items_of z.now) out.new.items) }
    ensures sorted { OnOk result (IsSorted (paint_cmp z.now) out.new.items) }

    // The answer, and what it parts.
    ensures count { IfOk result (λ count. count ≡ count_by (λ v. int_lt v (pos 0)) z.now) }
    ensures under { IfOk result (λ count.
        All (λ item. z_of z.now item <ℤ pos 0) (take count out.new.items)) }
    ensures over { IfOk result (λ count.
        All (λ item. pos 0 ≤ℤ z_of z.now item) (drop count out.new.items)) }

    ensures err { OnErr result (out.new.items ≡ out.old.items) }
{
    out.reserve(z.len().saturating_sub(out.len()))?;
    number(out, z.len());
    out.sort_unstable_by_key(|&item| (z_at(z, item), item));
    Ok(z.iter().filter(|z| **z < 0).count())
}
