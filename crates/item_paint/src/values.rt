ghost use Rattle.std.specs.Prelude.{◌≡◌};
ghost use Rattle.object_tree.specs.Reading.{is_given_at};
ghost use Rattle.item_paint.specs.Items.{shown_place, shown_int, shown_bool, shown_color};

use object_tree::Objects;
use qml_ast::{Place, Side, Value};

/// The place of what a slot shows.
fn shown_place(serial: u64, slot: u32) -> Place
    ensures { result ≡ shown_place serial slot }
{
    Place {
        serial,
        slot,
        side: Side::Shown,
    }
}

/// The number that a slot shows, or 0 where it shows none.
pub(crate) fn shown_int(objects: &Objects, serial: u64, slot: u32) -> i32
    ensures { result ≡ shown_int objects.now serial slot }
{
    match objects.value(shown_place(serial, slot)) {
        Some(Value::Int(n)) => *n,
        _ => 0,
    }
}

/// The truth value that a slot shows, or false where it shows none.
pub(crate) fn shown_bool(objects: &Objects, serial: u64, slot: u32) -> bool
    ensures { result ≡ shown_bool objects.now serial slot }
{
    match objects.value(shown_place(serial, slot)) {
        Some(Value::Bool(b)) => *b,
        _ => false,
    }
}

/// The colour that a slot shows, or one of no opacity where it shows none.
pub(crate) fn shown_color(objects: &Objects, serial: u64, slot: u32) -> u32
    ensures { result ≡ shown_color objects.now serial slot }
{
    match objects.value(shown_place(serial, slot)) {
        Some(Value::Color(argb)) => *argb,
        _ => 0,
    }
}

/// Whether a slot was given something by an initialiser or a write.
pub(crate) fn is_given(objects: &Objects, serial: u64, slot: u32) -> bool
    ensures { result ≡ is_given_at (shown_place serial slot) objects.now }
{
    objects.is_set(shown_place(serial, slot))
}
