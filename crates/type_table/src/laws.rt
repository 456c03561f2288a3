//! What holds of the whole table of built-in types. The functions do nothing; the contract of each is a law,
//! computed over all types.

ghost use Rattle.std.specs.Prelude.{◌≡◌, Some, IsTrue};
ghost use Rattle.type_table.specs.Names.{built_in_named, type_name};
ghost use Rattle.type_table.specs.Slots.{is_item, is_sound};
ghost use Rattle.type_table.specs.ItemSlots.{are_numbered};
ghost use Rattle.type_table.specs.declared.built_in.BuiltIn.{BuiltIn};

/// Each slot of a type is found under its own path, begins with a value of its kind, and has one side where it
/// stands in a group; the first slot is `objectName`. No two types have one name.
pub fn the_table_is_sound()
    ensures slots { (t : BuiltIn) → IsTrue (is_sound t) }
    ensures names { (t : BuiltIn) → built_in_named (type_name t) ≡ Some t }
{}

/// In a type of items each constant of `item_slots` is the number of the slot that its name spells,
/// as `find` gives it: `ANCHORS_LEFT_MARGIN` of `anchors.leftMargin`. In no other type is that so.
pub fn item_slots_are_found()
    ensures { (t : BuiltIn) → are_numbered t ≡ is_item t }
{}
