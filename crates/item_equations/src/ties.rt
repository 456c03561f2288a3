ghost use Rattle.std.specs.Prelude.{◌≡◌};
ghost use Rattle.item_equations.specs.Ties.{spot_of, kin_of, tie_with, tie_of};

use crate::axis::Axis;
use crate::view::ItemReader;
use qml_ast::{Edge, Value};

/// An item that an anchor may be tied to.
#[derive(Clone, Copy)]
pub enum Kin {
    /// The item in which the anchored one stands.
    Parent(u64),
    /// Another item in the same one.
    Sibling(u64),
}

/// A line of an item on one axis.
#[derive(Clone, Copy)]
pub enum Spot {
    /// Left or top.
    Near,
    /// Right or bottom.
    Far,
    Center,
}

/// What an anchor is tied to: a line of an item. An item as a whole is told by its centre.
#[derive(Clone, Copy)]
pub struct Tie {
    pub kin: Kin,
    pub spot: Spot,
}

// Which line of the axis an edge is; an edge of the other axis is none.
fn spot_of(axis: Axis, edge: Edge) -> Option<Spot>
    ensures { result ≡ spot_of axis edge }
{
    match (axis, edge) {
        (Axis::Horizontal, Edge::Left) => Some(Spot::Near),
        (Axis::Horizontal, Edge::Right) => Some(Spot::Far),
        (Axis::Horizontal, Edge::HCenter) => Some(Spot::Center),
        (Axis::Vertical, Edge::Top) => Some(Spot::Near),
        (Axis::Vertical, Edge::Bottom) => Some(Spot::Far),
        (Axis::Vertical, Edge::VCenter) => Some(Spot::Center),
        _ => None,
    }
}

// What an item is to another one that may be anchored to it.
#[tactic(auto, unfolding(crate::specs::Ties::kin_of))]
fn kin_of<R: ItemReader>(reader: &R, item: u64, target: u64) -> Option<Kin>
    ensures { result ≡ kin_of (R.family reader.now) item target }
{
    let parent = reader.parent(item)?;
    if target == parent {
        Some(Kin::Parent(target))
    } else if target == item {
        None
    } else if reader.parent(target) == Some(parent) {
        Some(Kin::Sibling(target))
    } else {
        None
    }
}

fn tie_with(spot: Option<Spot>, kin: Option<Kin>) -> Option<Tie>
    ensures { result ≡ tie_with spot kin }
{
    let spot = spot?;
    let kin = kin?;
    Some(Tie { kin, spot })
}

/// What the value of an anchor ties an item to on an axis. None where it names nothing, where what it names is
/// neither the item's parent nor a sibling, and where it is a line of the other axis.
#[tactic(auto, unfolding(crate::specs::Ties::tie_of))]
pub fn tie_of<R: ItemReader>(reader: &R, axis: Axis, item: u64, value: &Value) -> Option<Tie>
    ensures { result ≡ tie_of (R.family reader.now) axis item value.now }
{
    match value {
        Value::Obj(target) => tie_with(Some(Spot::Center), kin_of(reader, item, *target)),
        Value::Line(Some(line)) => tie_with(
            spot_of(axis, line.edge),
            kin_of(reader, item, line.serial),
        ),
        _ => None,
    }
}
