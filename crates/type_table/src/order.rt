ghost use Rattle.std.specs.Prelude.{◌≤◌, IsTrue, length};
ghost use Rattle.type_table.specs.Slots.{paths};
ghost use Rattle.type_table.specs.Order.{is_order};

use crate::built_in::BuiltIn;

static OBJECT: [u8; 1] = [0];

static ITEM: [u8; 37] = [
    21, 30, 25, 24, 22, 31, 18, 27, 26, 19, 28, 20, 29, 23, 32, 15, 36, 35, 33, 34, 11, 10, 6, 16,
    8, 7, 12, 0, 1, 13, 14, 17, 9, 5, 2, 3, 4,
];

static RECTANGLE: [u8; 40] = [
    21, 30, 25, 24, 22, 31, 18, 27, 26, 19, 28, 20, 29, 23, 32, 39, 38, 15, 36, 35, 33, 34, 11, 37,
    10, 6, 16, 8, 7, 12, 0, 1, 13, 14, 17, 9, 5, 2, 3, 4,
];

static ROW: [u8; 39] = [
    21, 30, 25, 24, 22, 31, 18, 27, 26, 19, 28, 20, 29, 23, 32, 15, 36, 35, 33, 34, 11, 10, 6, 16,
    8, 7, 38, 12, 0, 1, 13, 37, 14, 17, 9, 5, 2, 3, 4,
];

static COLUMN: [u8; 38] = [
    21, 30, 25, 24, 22, 31, 18, 27, 26, 19, 28, 20, 29, 23, 32, 15, 36, 35, 33, 34, 11, 10, 6, 16,
    8, 7, 12, 0, 1, 13, 37, 14, 17, 9, 5, 2, 3, 4,
];

static MOUSE_AREA: [u8; 40] = [
    21, 30, 25, 24, 22, 31, 18, 27, 26, 19, 28, 20, 29, 23, 32, 15, 36, 35, 33, 34, 11, 10, 6, 16,
    8, 7, 12, 38, 39, 0, 1, 37, 13, 14, 17, 9, 5, 2, 3, 4,
];

static TIMER: [u8; 5] = [1, 0, 2, 3, 4];

static LOADER: [u8; 43] = [
    37, 21, 30, 25, 24, 22, 31, 18, 27, 26, 19, 28, 20, 29, 23, 32, 38, 15, 36, 35, 33, 34, 11, 10,
    6, 16, 8, 7, 42, 12, 0, 1, 13, 39, 40, 41, 14, 17, 9, 5, 2, 3, 4,
];

// The numbers of a type's slots, by rising paths.
#[tactic(auto, unfolding(crate::specs::Slots::slots))]
pub(crate) fn order_of(built_in: BuiltIn) -> &'static [u8]
    ensures order { IsTrue (is_order (paths built_in) result.now) }
    ensures few { length result.now ≤ 100 }
{
    match built_in {
        BuiltIn::QtObject => &OBJECT,
        BuiltIn::Item => &ITEM,
        BuiltIn::Rectangle => &RECTANGLE,
        BuiltIn::Row => &ROW,
        BuiltIn::Column => &COLUMN,
        BuiltIn::MouseArea => &MOUSE_AREA,
        BuiltIn::Timer => &TIMER,
        BuiltIn::Loader => &LOADER,
        BuiltIn::Component => &OBJECT,
    }
}
