ghost use Rattle.std.specs.Prelude.{◌≡◌, ◌≤◌, length, map};
ghost use Rattle.type_table.specs.Slots.{slots, slot_of};

use crate::built_in::BuiltIn;
use crate::slot::{Initial, Kind, SlotInfo};

// A slot under its path.
#[derive(Clone, Copy)]
pub(crate) struct TableRow {
    pub(crate) path: &'static str,
    pub(crate) info: SlotInfo,
}

macro_rules! slot {
    ($path:literal, $kind:ident, $initial:expr) => {
        slot!($path, $kind, $initial; false, false)
    };
    ($path:literal, $kind:ident, $initial:expr; $read_only:literal, $sided:literal) => {
        TableRow {
            path: $path,
            info: SlotInfo {
                kind: Kind::$kind,
                initial: $initial,
                read_only: $read_only,
                sided: $sided,
            },
        }
    };
}

macro_rules! number {
    ($path:literal) => {
        slot!($path, Int, Initial::Int(0))
    };
}

macro_rules! sided_number {
    ($path:literal) => {
        sided_number!($path, false)
    };
    ($path:literal, $read_only:literal) => {
        slot!($path, Int, Initial::Int(0); $read_only, true)
    };
}

macro_rules! fixed_number {
    ($path:literal) => {
        slot!($path, Int, Initial::Int(0); true, false)
    };
}

macro_rules! own_line {
    ($path:literal) => {
        slot!($path, Line, Initial::OwnLine; true, false)
    };
}

macro_rules! anchor_line {
    ($path:literal) => {
        slot!($path, Line, Initial::NoLine)
    };
}

// The slots of a type of items: those of `Item`, whose implicit sizes are read-only or not, and its own.
macro_rules! item_table {
    ($fixed_size:literal; $($own:expr),*) => {
        [
            slot!("objectName", Str, Initial::Empty),
            slot!("parent", Obj, Initial::Null; true, false),
            sided_number!("x"),
            sided_number!("y"),
            number!("z"),
            sided_number!("width"),
            sided_number!("height"),
            sided_number!("implicitWidth", $fixed_size),
            sided_number!("implicitHeight", $fixed_size),
            slot!("visible", Bool, Initial::Bool(true); false, true),
            slot!("enabled", Bool, Initial::Bool(true); false, true),
            slot!("clip", Bool, Initial::Bool(false)),
            own_line!("left"),
            own_line!("right"),
            own_line!("top"),
            own_line!("bottom"),
            own_line!("horizontalCenter"),
            own_line!("verticalCenter"),
            anchor_line!("anchors.left"),
            anchor_line!("anchors.right"),
            anchor_line!("anchors.top"),
            anchor_line!("anchors.bottom"),
            anchor_line!("anchors.horizontalCenter"),
            anchor_line!("anchors.verticalCenter"),
            slot!("anchors.fill", Obj, Initial::Null),
            slot!("anchors.centerIn", Obj, Initial::Null),
            number!("anchors.margins"),
            number!("anchors.leftMargin"),
            number!("anchors.rightMargin"),
            number!("anchors.topMargin"),
            number!("anchors.bottomMargin"),
            number!("anchors.horizontalCenterOffset"),
            number!("anchors.verticalCenterOffset"),
            fixed_number!("childrenRect.x"),
            fixed_number!("childrenRect.y"),
            fixed_number!("childrenRect.width"),
            fixed_number!("childrenRect.height"),
            $($own),*
        ]
    };
}

static OBJECT: [TableRow; 1] = [slot!("objectName", Str, Initial::Empty)];

static ITEM: [TableRow; 37] = item_table!(false;);

static RECTANGLE: [TableRow; 40] = item_table!(
    false;
    slot!("color", Color, Initial::Color(0xffff_ffff)),
    slot!("border.width", Int, Initial::Int(1)),
    slot!("border.color", Color, Initial::Color(0xff00_0000))
);

static ROW: [TableRow; 39] = item_table!(
    true;
    number!("spacing"),
    number!("layoutDirection")
);

static COLUMN: [TableRow; 38] = item_table!(
    true;
    number!("spacing")
);

static MOUSE_AREA: [TableRow; 40] = item_table!(
    false;
    slot!("pressed", Bool, Initial::Bool(false); true, false),
    fixed_number!("mouseX"),
    fixed_number!("mouseY")
);

static TIMER: [TableRow; 5] = [
    slot!("objectName", Str, Initial::Empty),
    slot!("interval", Int, Initial::Int(1000)),
    slot!("repeat", Bool, Initial::Bool(false)),
    slot!("running", Bool, Initial::Bool(false)),
    slot!("triggeredOnStart", Bool, Initial::Bool(false)),
];

static LOADER: [TableRow; 43] = item_table!(
    true;
    slot!("active", Bool, Initial::Bool(true)),
    slot!("asynchronous", Bool, Initial::Bool(false)),
    slot!("source", Str, Initial::Empty),
    slot!("sourceComponent", Component, Initial::Null),
    fixed_number!("status"),
    slot!("item", Obj, Initial::Null; true, false)
);

// The slots of a type, in order.
#[tactic(auto, unfolding(crate::specs::Slots::slots))]
pub(crate) fn table_of(built_in: BuiltIn) -> &'static [TableRow]
    ensures slots { map slot_of result.now ≡ slots built_in }
    ensures few { length result.now ≤ 100 }
{
    match built_in {
        BuiltIn::QtObject => &OBJECT,
        BuiltIn::Item => &ITEM,
        BuiltIn::Rectangle => &RECTANGLE,
        BuiltIn::Row => &ROW,
        BuiltIn::Column => &COLUMN,
        BuiltIn::MouseArea => &MOUSE_AREA,
        BuiltIn::Timer => &TIMER,
        BuiltIn::Loader => &LOADER,
        BuiltIn::Component => &OBJECT,
    }
}
