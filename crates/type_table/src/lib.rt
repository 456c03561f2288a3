//! The built-in types of QML documents: the slots of each, by name and in order, and its signals and
//! methods.
#![tactic(auto)]

pub mod built_in;
pub mod item_slots;
pub mod laws;
pub mod names;
mod order;
pub mod slot;
mod table;

pub use built_in::BuiltIn;
pub use laws::{item_slots_are_found, the_table_is_sound};
pub use names::{
    builtin, has_group, is_item, method, method_count, signal, signal_args, signal_count,
};
pub use slot::{Initial, Kind, Slot, SlotInfo, find, slot_at, slot_count, slot_path};
