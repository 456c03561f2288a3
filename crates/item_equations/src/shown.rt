ghost use Rattle.std.specs.Prelude.{◌≡◌};
ghost use Rattle.item_equations.specs.Asking.{sight, walk};
ghost use Rattle.item_equations.specs.Native.{shown_place, own_size, shown_size, implicit_size, inherited};

use crate::axis::Axis;
use crate::reading::{flag, number, set_of, shown_of};
use crate::records::{anchored_as, placed, sized};
use crate::rows::row;
use crate::stop::Stop;
use crate::view::ItemReader;
use anchors::AxisColumn;

/// The `x` or `y` of an item: what its anchors give, and else what is set.
#[tactic(auto, using(crate::proofs::Walks::steps), unfolding(crate::specs::Native::shown_place))]
pub(crate) fn shown_place<R: ItemReader>(reader: &R, axis: Axis, item: u64) -> Result<i32, Stop>
    ensures { walk (sight (R.clean reader.now) (R.means reader.now)) (shown_place (R.family reader.now) axis item) ≡ result }
{
    let row = row(reader, axis, item)?;
    let anchors = placed(reader, axis, item, row)?;
    match anchored_as(AxisColumn::Place, &anchors)? {
        Some(place) => Ok(place),
        None => number(reader, set_of(item, axis.slots().place)),
    }
}

// The size that an item has of itself: the set one, and else the implicit one.
#[tactic(auto, using(crate::proofs::Walks::steps), unfolding(crate::specs::Native::own_size))]
fn own_size<R: ItemReader>(reader: &R, axis: Axis, item: u64) -> Result<i32, Stop>
    ensures { walk (sight (R.clean reader.now) (R.means reader.now)) (own_size (R.family reader.now) axis item) ≡ result }
{
    let set = set_of(item, axis.slots().size);
    let size = number(reader, set)?;
    if reader.is_set(set) {
        Ok(size)
    } else {
        number(reader, shown_of(item, axis.slots().implicit_size))
    }
}

/// The `width` or `height` of an item: what its anchors give, else what is set, and else the implicit size.
#[tactic(auto, using(crate::proofs::Walks::steps), unfolding(crate::specs::Native::shown_size))]
pub(crate) fn shown_size<R: ItemReader>(reader: &R, axis: Axis, item: u64) -> Result<i32, Stop>
    ensures { walk (sight (R.clean reader.now) (R.means reader.now)) (shown_size (R.family reader.now) axis item) ≡ result }
{
    let row = row(reader, axis, item)?;
    let anchors = sized(reader, axis, item, row)?;
    match anchored_as(AxisColumn::Size, &anchors)? {
        Some(size) => Ok(size),
        None => own_size(reader, axis, item),
    }
}

/// The `implicitWidth` or `implicitHeight` of an item: what is set.
#[tactic(auto, using(crate::proofs::Walks::steps), unfolding(crate::specs::Native::implicit_size))]
pub(crate) fn implicit_size<R: ItemReader>(reader: &R, axis: Axis, item: u64) -> Result<i32, Stop>
    ensures { walk (sight (R.clean reader.now) (R.means reader.now)) (implicit_size (R.family reader.now) axis item) ≡ result }
{
    number(reader, set_of(item, axis.slots().implicit_size))
}

/// Whether an item is visible or enabled, by that slot: what is set, and what its parent shows.
#[tactic(auto, using(crate::proofs::Walks::steps), unfolding(crate::specs::Native::inherited))]
pub(crate) fn inherited<R: ItemReader>(reader: &R, slot: u32, item: u64) -> Result<bool, Stop>
    ensures { walk (sight (R.clean reader.now) (R.means reader.now)) (inherited (R.family reader.now) slot item) ≡ result }
{
    let own = flag(reader, set_of(item, slot))?;
    match reader.parent(item) {
        Some(parent) => {
            let above = flag(reader, shown_of(parent, slot))?;
            Ok(own && above)
        }
        None => Ok(own),
    }
}
