ghost use Rattle.std.specs.Prelude.{◌≡◌};
ghost use Rattle.item_equations.specs.Asking.{sight, walk};
ghost use Rattle.item_equations.specs.Reads.{int_of, bool_of, number, flag, margin};
ghost use Rattle.item_equations.specs.Slots.{shown_of, set_of};

use crate::stop::Stop;
use crate::view::ItemReader;
use expr_eval::Reader;
use qml_ast::{Place, Side, Value};
use type_table::item_slots::ANCHORS_MARGINS;

/// The place of what a slot shows.
pub(crate) fn shown_of(item: u64, slot: u32) -> Place
    ensures { result ≡ shown_of item slot }
{
    Place {
        serial: item,
        slot,
        side: Side::Shown,
    }
}

/// The place of what a slot is set to.
pub(crate) fn set_of(item: u64, slot: u32) -> Place
    ensures { result ≡ set_of item slot }
{
    Place {
        serial: item,
        slot,
        side: Side::Set,
    }
}

/// The number that a value of a slot of numbers is.
pub(crate) fn int_of(value: &Value) -> i32
    ensures { result ≡ int_of value.now }
{
    match value {
        Value::Int(number) => *number,
        _ => 0,
    }
}

fn bool_of(value: &Value) -> bool
    ensures { result ≡ bool_of value.now }
{
    match value {
        Value::Bool(truth) => *truth,
        _ => false,
    }
}

/// The number of a place.
#[tactic(auto, unfolding(crate::specs::Asking::walk, crate::specs::Asking::sight, crate::specs::Reads::number))]
pub(crate) fn number<R: ItemReader>(reader: &R, place: Place) -> Result<i32, Stop>
    ensures { walk (sight (R.clean reader.now) (R.means reader.now)) (number place) ≡ result }
{
    match reader.read(place) {
        Some(value) => Ok(int_of(value)),
        None => Err(Stop::Needs(place)),
    }
}

/// The truth value of a place.
#[tactic(auto, unfolding(crate::specs::Asking::walk, crate::specs::Asking::sight, crate::specs::Reads::flag))]
pub(crate) fn flag<R: ItemReader>(reader: &R, place: Place) -> Result<bool, Stop>
    ensures { walk (sight (R.clean reader.now) (R.means reader.now)) (flag place) ≡ result }
{
    match reader.read(place) {
        Some(value) => Ok(bool_of(value)),
        None => Err(Stop::Needs(place)),
    }
}

/// A margin of an item: its own where that is set, and else that of all sides.
#[tactic(auto, using(crate::proofs::Walks::steps), unfolding(crate::specs::Reads::margin))]
pub(crate) fn margin<R: ItemReader>(reader: &R, item: u64, slot: u32) -> Result<i32, Stop>
    ensures { walk (sight (R.clean reader.now) (R.means reader.now)) (margin (R.family reader.now) item slot) ≡ result }
{
    let own = shown_of(item, slot);
    let margin = number(reader, own)?;
    if reader.is_set(own) {
        Ok(margin)
    } else {
        number(reader, shown_of(item, ANCHORS_MARGINS))
    }
}
