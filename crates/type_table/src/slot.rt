ghost use Rattle.std.specs.Prelude.{◌≡◌, ◌<◌, Some, length, IsSomeAnd};
ghost use Rattle.std.specs.List.{slice_get};
ghost use Rattle.type_table.specs.Slots.{slots, find_slot};

use crate::built_in::BuiltIn;
use crate::order::order_of;
use crate::table::table_of;
use std::cmp::Ordering;

/// What a slot holds.
#[derive(Clone, Copy, PartialEq, Eq)]
pub enum Kind {
    /// A 32-bit integer.
    Int,
    /// True or false.
    Bool,
    /// A text.
    Str,
    /// A colour with its alpha.
    Color,
    /// An object, or null.
    Obj,
    /// An edge or a centre line of an item, or none.
    Line,
    /// An object that is a `Component`, or null.
    Component,
    /// Any value.
    Var,
}

/// What a slot holds in an object that was just made.
#[derive(Clone, Copy, PartialEq, Eq)]
pub enum Initial {
    /// That integer.
    Int(i32),
    /// True or false.
    Bool(bool),
    /// The empty text.
    Empty,
    /// That colour: alpha, red, green and blue, from the highest byte to the lowest.
    Color(u32),
    /// No object.
    Null,
    /// No line.
    NoLine,
    /// The object's own line of the slot's name.
    OwnLine,
}

/// A slot of a built-in type, by its number.
#[derive(Clone, Copy, PartialEq, Eq)]
pub struct Slot {
    /// How many slots of the type come before it.
    pub index: u32,
}

/// What is known of a slot in all objects of its type.
#[derive(Clone, Copy, PartialEq, Eq)]
pub struct SlotInfo {
    /// What it holds.
    pub kind: Kind,
    /// What it holds at first.
    pub initial: Initial,
    /// Documents don't write it.
    pub read_only: bool,
    /// The value that is set and the value that is shown are two.
    pub sided: bool,
}

/// The slot of that path, which is a name, as `width`, or a group with a name in it, as
/// `anchors.leftMargin`. `None` where the type has no such slot.
pub fn find(built_in: BuiltIn, path: &str) -> Option<Slot>
    ensures { result ≡ find_slot built_in path.now }
{
    let order = order_of(built_in);
    let mut low = 0;
    let mut high = order.len();
    while low < high {
        let middle = low + (high - low) / 2;
        let index = u32::from(order[middle]);
        match slot_path(built_in, index).cmp(path) {
            Ordering::Less => low = middle + 1,
            Ordering::Greater => high = middle,
            Ordering::Equal => return Some(Slot { index }),
        }
    }
    None
}

/// How many slots the type has.
pub fn slot_count(built_in: BuiltIn) -> u32
    ensures { result ≡ length (slots built_in) }
{
    table_of(built_in).len() as u32
}

/// The slot with that number of slots before it.
pub fn slot_at(built_in: BuiltIn, index: u32) -> SlotInfo
    requires { index < length (slots built_in) }
    ensures { IsSomeAnd (slice_get (slots built_in) index) (λ slot. result ≡ slot.info) }
{
    table_of(built_in)[index as usize].info
}

/// The path of the slot with that number of slots before it, under which `find` gives that slot.
pub fn slot_path(built_in: BuiltIn, index: u32) -> &'static str
    requires { index < length (slots built_in) }
    ensures path { IsSomeAnd (slice_get (slots built_in) index) (λ slot. result.now ≡ slot.path) }
    ensures found { find_slot built_in result.now ≡ Some (record { index = index }) }
{
    table_of(built_in)[index as usize].path
}
