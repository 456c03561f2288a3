ghost use Rattle.std.specs.Prelude.{◌≡◌};
ghost use Rattle.item_equations.specs.Asking.{sight};
ghost use Rattle.item_equations.specs.Ignored.{axis_of, is_anchor, is_named, is_tied, is_missed, is_third, neglect_of};

use crate::axis::Axis;
use crate::reading::shown_of;
use crate::ties::tie_of;
use crate::view::ItemReader;
use expr_eval::Reader;
use qml_ast::Value;
use type_table::item_slots::*;

/// Why an anchor of an item counts for nothing.
#[derive(Clone, Copy, PartialEq, Eq)]
pub enum Neglect {
    /// What it names is neither the item's parent nor a sibling, or is a line of the other axis.
    Target,
    /// It is a centre line beside both other lines of its axis.
    Center,
}

// The axis that an anchor speaks of; an item as a whole is looked at on either.
fn axis_of(slot: u32) -> Option<Axis>
    ensures { result ≡ axis_of slot }
{
    if slot == ANCHORS_LEFT || slot == ANCHORS_RIGHT || slot == ANCHORS_HORIZONTAL_CENTER {
        Some(Axis::Horizontal)
    } else if slot == ANCHORS_TOP || slot == ANCHORS_BOTTOM || slot == ANCHORS_VERTICAL_CENTER {
        Some(Axis::Vertical)
    } else if slot == ANCHORS_FILL || slot == ANCHORS_CENTER_IN {
        Some(Axis::Horizontal)
    } else {
        None
    }
}

/// Whether the slot of an item of that number is an anchor.
pub fn is_anchor(slot: u32) -> bool
    ensures { result ≡ is_anchor slot }
{
    axis_of(slot).is_some()
}

// Whether a value names an item or a line.
fn is_named(value: &Value) -> bool
    ensures { result ≡ is_named value.now }
{
    match value {
        Value::Obj(target) => *target != 0,
        Value::Line(line) => line.is_some(),
        _ => false,
    }
}

// Whether an anchor has a lawful target.
#[tactic(auto, unfolding(crate::specs::Asking::sight))]
fn is_tied<R: ItemReader>(reader: &R, axis: Axis, item: u64, slot: u32) -> bool
    ensures { result ≡ is_tied (R.family reader.now) (sight (R.clean reader.now) (R.means reader.now)) item axis slot }
{
    match reader.read(shown_of(item, slot)) {
        Some(value) => tie_of(reader, axis, item, value).is_some(),
        None => false,
    }
}

// Whether an anchor names a target that isn't lawful.
#[tactic(auto, unfolding(crate::specs::Asking::sight))]
fn is_missed<R: ItemReader>(reader: &R, axis: Axis, item: u64, slot: u32) -> bool
    ensures { result ≡ is_missed (R.family reader.now) (sight (R.clean reader.now) (R.means reader.now)) item axis slot }
{
    match reader.read(shown_of(item, slot)) {
        Some(value) => is_named(value) && tie_of(reader, axis, item, value).is_none(),
        None => false,
    }
}

// Whether an anchor is the centre line, and all three lines of the axis have lawful targets.
fn is_third<R: ItemReader>(reader: &R, axis: Axis, item: u64, slot: u32) -> bool
    ensures { result ≡ is_third (R.family reader.now) (sight (R.clean reader.now) (R.means reader.now)) item axis slot }
{
    let slots = axis.slots();
    slot == slots.center
        && is_tied(reader, axis, item, slot)
        && is_tied(reader, axis, item, slots.near)
        && is_tied(reader, axis, item, slots.far)
}

/// Why the anchor of an item that a slot of that number is counts for nothing. None where it counts, names
/// nothing, or has no value yet, and of other slots.
#[tactic(auto, unfolding(crate::specs::Ignored::neglect_of))]
pub fn neglect_of<R: ItemReader>(reader: &R, item: u64, slot: u32) -> Option<Neglect>
    ensures { result ≡ neglect_of (R.family reader.now) (sight (R.clean reader.now) (R.means reader.now)) item slot }
{
    let axis = axis_of(slot)?;
    if is_missed(reader, axis, item, slot) {
        Some(Neglect::Target)
    } else if is_third(reader, axis, item, slot) {
        Some(Neglect::Center)
    } else {
        None
    }
}
