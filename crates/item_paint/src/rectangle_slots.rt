//! The numbers of the slots that a Rectangle has beside those of an item.

ghost use Rattle.std.specs.Prelude.{◌≡◌, IsTrue};
ghost use Rattle.item_paint.specs.RectangleSlots.{are_numbered};

/// The colour of its inside.
pub const COLOR: u32 = 37;
/// The width of its border, in pixels.
pub const BORDER_WIDTH: u32 = 38;
/// The colour of its border.
pub const BORDER_COLOR: u32 = 39;

/// Each constant is the number of the Rectangle's slot of that path: `BORDER_WIDTH` of `border.width`. The
/// function does nothing.
pub fn rectangle_slots_are_found()
    ensures { IsTrue are_numbered }
{}
