//! The numbers of the slots of an item, which are the same in each type of items.

/// The name for documents' own use.
pub const OBJECT_NAME: u32 = 0;
/// The item in whose coordinates this one is placed.
pub const PARENT: u32 = 1;
/// The left edge, in pixels.
pub const X: u32 = 2;
/// The top edge, in pixels.
pub const Y: u32 = 3;
/// The place in the order of drawing among siblings.
pub const Z: u32 = 4;
/// The width, in pixels.
pub const WIDTH: u32 = 5;
/// The height, in pixels.
pub const HEIGHT: u32 = 6;
/// The width that the item has where none is set.
pub const IMPLICIT_WIDTH: u32 = 7;
/// The height that the item has where none is set.
pub const IMPLICIT_HEIGHT: u32 = 8;
/// Whether the item is drawn.
pub const VISIBLE: u32 = 9;
/// Whether the item takes the mouse.
pub const ENABLED: u32 = 10;
/// Whether the item's drawing is cut to its rectangle.
pub const CLIP: u32 = 11;
/// The item's own left line.
pub const LEFT: u32 = 12;
/// The item's own right line.
pub const RIGHT: u32 = 13;
/// The item's own top line.
pub const TOP: u32 = 14;
/// The item's own bottom line.
pub const BOTTOM: u32 = 15;
/// The item's own line through its middle, downwards.
pub const HORIZONTAL_CENTER: u32 = 16;
/// The item's own line through its middle, across.
pub const VERTICAL_CENTER: u32 = 17;
/// The line to which the left edge is anchored.
pub const ANCHORS_LEFT: u32 = 18;
/// The line to which the right edge is anchored.
pub const ANCHORS_RIGHT: u32 = 19;
/// The line to which the top edge is anchored.
pub const ANCHORS_TOP: u32 = 20;
/// The line to which the bottom edge is anchored.
pub const ANCHORS_BOTTOM: u32 = 21;
/// The line to which the middle is anchored, across.
pub const ANCHORS_HORIZONTAL_CENTER: u32 = 22;
/// The line to which the middle is anchored, downwards.
pub const ANCHORS_VERTICAL_CENTER: u32 = 23;
/// The item that this one fills.
pub const ANCHORS_FILL: u32 = 24;
/// The item in whose middle this one stands.
pub const ANCHORS_CENTER_IN: u32 = 25;
/// The margin on each side that has none of its own.
pub const ANCHORS_MARGINS: u32 = 26;
/// The margin on the left.
pub const ANCHORS_LEFT_MARGIN: u32 = 27;
/// The margin on the right.
pub const ANCHORS_RIGHT_MARGIN: u32 = 28;
/// The margin at the top.
pub const ANCHORS_TOP_MARGIN: u32 = 29;
/// The margin at the bottom.
pub const ANCHORS_BOTTOM_MARGIN: u32 = 30;
/// How far to the right of its anchor the middle stands.
pub const ANCHORS_HORIZONTAL_CENTER_OFFSET: u32 = 31;
/// How far below its anchor the middle stands.
pub const ANCHORS_VERTICAL_CENTER_OFFSET: u32 = 32;
/// The left end of the children.
pub const CHILDREN_RECT_X: u32 = 33;
/// The top end of the children.
pub const CHILDREN_RECT_Y: u32 = 34;
/// The width that the children cover.
pub const CHILDREN_RECT_WIDTH: u32 = 35;
/// The height that the children cover.
pub const CHILDREN_RECT_HEIGHT: u32 = 36;
