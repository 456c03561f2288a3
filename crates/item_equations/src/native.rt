ghost use Rattle.std.specs.Prelude.{◌≡◌};
ghost use Rattle.item_equations.specs.Asking.{sight, walk};
ghost use Rattle.item_equations.specs.Native.{native_of, equation};
ghost use Rattle.item_equations.specs.Progress.{IsMet};

use crate::axis::Axis;
use crate::children::{children_place, children_size};
use crate::progress::Progress;
use crate::shown::{implicit_size, inherited, shown_place, shown_size};
use crate::stop::Stop;
use crate::view::ItemReader;
use qml_ast::Value;
use type_table::item_slots::*;

/// An equation of an item's slot, which says what the slot shows.
#[derive(Clone, Copy)]
pub enum Native {
    /// `x` or `y`: what the anchors give, and else what is set.
    Place(Axis),
    /// `width` or `height`: what the anchors give, else what is set, and else the implicit size.
    Size(Axis),
    /// `implicitWidth` or `implicitHeight`: what is set.
    ImplicitSize(Axis),
    /// `visible` or `enabled`, by its slot: what is set and what the parent shows.
    Inherited(u32),
    /// `childrenRect.x` or `childrenRect.y`: where the first of the items in the item begins.
    ChildrenPlace(Axis),
    /// `childrenRect.width` or `childrenRect.height`: how far the items in the item reach.
    ChildrenSize(Axis),
}

/// The equation of an item's slot of that number, if it has one.
pub fn native_of(slot: u32) -> Option<Native>
    ensures { result ≡ native_of slot }
{
    if slot == X {
        Some(Native::Place(Axis::Horizontal))
    } else if slot == Y {
        Some(Native::Place(Axis::Vertical))
    } else if slot == WIDTH {
        Some(Native::Size(Axis::Horizontal))
    } else if slot == HEIGHT {
        Some(Native::Size(Axis::Vertical))
    } else if slot == IMPLICIT_WIDTH {
        Some(Native::ImplicitSize(Axis::Horizontal))
    } else if slot == IMPLICIT_HEIGHT {
        Some(Native::ImplicitSize(Axis::Vertical))
    } else if slot == VISIBLE {
        Some(Native::Inherited(VISIBLE))
    } else if slot == ENABLED {
        Some(Native::Inherited(ENABLED))
    } else if slot == CHILDREN_RECT_X {
        Some(Native::ChildrenPlace(Axis::Horizontal))
    } else if slot == CHILDREN_RECT_Y {
        Some(Native::ChildrenPlace(Axis::Vertical))
    } else if slot == CHILDREN_RECT_WIDTH {
        Some(Native::ChildrenSize(Axis::Horizontal))
    } else if slot == CHILDREN_RECT_HEIGHT {
        Some(Native::ChildrenSize(Axis::Vertical))
    } else {
        None
    }
}

/// What an item's slot shows by its equation, over the places that have a value already. It stops at the first
/// place that it reads and that has none, and where its value leaves the range of an `i32`.
///
/// An evaluation that stopped before goes on from how far it had come, where the places have the same values still,
/// and gives what it would give from its beginning.
#[tactic(auto, using(crate::proofs::Walks::steps), unfolding(crate::specs::Native::equation))]
pub fn evaluate<R: ItemReader>(
    reader: &R,
    native: Native,
    item: u64,
    far: &mut Progress,
) -> Result<Value, Stop>
    requires { IsMet (sight (R.clean reader.now) (R.means reader.now)) (R.family reader.now) native item far.old }
    ensures value { walk (sight (R.clean reader.now) (R.means reader.now)) (equation (R.family reader.now) native item) ≡ result }
    ensures met { IsMet (sight (R.clean reader.now) (R.means reader.now)) (R.family reader.now) native item far.new }
{
    match native {
        Native::Place(axis) => Ok(Value::Int(shown_place(reader, axis, item)?)),
        Native::Size(axis) => Ok(Value::Int(shown_size(reader, axis, item)?)),
        Native::ImplicitSize(axis) => Ok(Value::Int(implicit_size(reader, axis, item)?)),
        Native::Inherited(slot) => Ok(Value::Bool(inherited(reader, slot, item)?)),
        Native::ChildrenPlace(axis) => Ok(Value::Int(children_place(reader, axis, item, far)?)),
        Native::ChildrenSize(axis) => Ok(Value::Int(children_size(reader, axis, item, far)?)),
    }
}
