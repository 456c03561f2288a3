use type_table::{
    BuiltIn, Initial, Kind, Slot, SlotInfo, builtin, find, has_group, is_item, method,
    method_count, signal, signal_args, signal_count, slot_at, slot_count, slot_path,
};

/// A type's name, how many slots, signals and methods it has, and of which groups.
struct TypeCase {
    name: &'static str,
    slots: u32,
    signals: u16,
    methods: u16,
    is_item: bool,
    has_border: bool,
}

macro_rules! type_case {
    ($name:literal => $slots:expr, $signals:expr, $methods:expr, $is_item:expr, $has_border:expr) => {
        TypeCase {
            name: $name,
            slots: $slots,
            signals: $signals,
            methods: $methods,
            is_item: $is_item,
            has_border: $has_border,
        }
    };
}

static TYPES: [TypeCase; 9] = [
    type_case!("QtObject" => 1, 0, 0, false, false),
    type_case!("Item" => 37, 0, 0, true, false),
    type_case!("Rectangle" => 40, 0, 0, true, true),
    type_case!("Row" => 39, 0, 0, true, false),
    type_case!("Column" => 38, 0, 0, true, false),
    type_case!("MouseArea" => 40, 3, 0, true, false),
    type_case!("Timer" => 5, 1, 3, false, false),
    type_case!("Loader" => 43, 1, 0, true, false),
    type_case!("Component" => 1, 0, 0, false, false),
];

static NO_TYPES: [&str; 5] = ["", "item", "Items", "Text", "Qt.Item"];

fn has_groups(t: BuiltIn, case: &TypeCase) -> bool {
    has_group(t, "anchors") == case.is_item
        && has_group(t, "childrenRect") == case.is_item
        && has_group(t, "border") == case.has_border
        && !has_group(t, "width")
}

fn has_counts(t: BuiltIn, case: &TypeCase) -> bool {
    slot_count(t) == case.slots
        && signal_count(t) == case.signals
        && method_count(t) == case.methods
        && is_item(t) == case.is_item
}

#[test]
fn types(rt: HostRuntime) {
    for case in &TYPES {
        let found = builtin(case.name).is_some_and(|t| has_counts(t, case) && has_groups(t, case));
        assert!(rt; found);
    }
    for name in NO_TYPES {
        assert!(rt; builtin(name).is_none());
    }
}

struct SlotCase {
    built_in: BuiltIn,
    path: &'static str,
    index: u32,
    info: SlotInfo,
}

macro_rules! slot {
    ($built_in:ident, $path:literal, $index:literal => $kind:ident, $initial:expr) => {
        slot!($built_in, $path, $index => $kind, $initial; false, false)
    };
    (
        $built_in:ident, $path:literal, $index:literal => $kind:ident, $initial:expr;
        $read_only:literal, $sided:literal
    ) => {
        SlotCase {
            built_in: BuiltIn::$built_in,
            path: $path,
            index: $index,
            info: SlotInfo {
                kind: Kind::$kind,
                initial: $initial,
                read_only: $read_only,
                sided: $sided,
            },
        }
    };
}

static SLOTS: [SlotCase; 27] = [
    slot!(Item, "objectName", 0 => Str, Initial::Empty),
    slot!(Item, "parent", 1 => Obj, Initial::Null; true, false),
    slot!(Item, "x", 2 => Int, Initial::Int(0); false, true),
    slot!(Item, "z", 4 => Int, Initial::Int(0)),
    slot!(Item, "implicitWidth", 7 => Int, Initial::Int(0); false, true),
    slot!(Item, "enabled", 10 => Bool, Initial::Bool(true); false, true),
    slot!(Item, "clip", 11 => Bool, Initial::Bool(false)),
    slot!(Item, "horizontalCenter", 16 => Line, Initial::OwnLine; true, false),
    slot!(Item, "anchors.bottom", 21 => Line, Initial::NoLine),
    slot!(Item, "anchors.centerIn", 25 => Obj, Initial::Null),
    slot!(Item, "anchors.leftMargin", 27 => Int, Initial::Int(0)),
    slot!(Item, "childrenRect.height", 36 => Int, Initial::Int(0); true, false),
    slot!(Rectangle, "color", 37 => Color, Initial::Color(0xffff_ffff)),
    slot!(Rectangle, "border.width", 38 => Int, Initial::Int(1)),
    slot!(Rectangle, "border.color", 39 => Color, Initial::Color(0xff00_0000)),
    slot!(Row, "implicitWidth", 7 => Int, Initial::Int(0); true, true),
    slot!(Row, "layoutDirection", 38 => Int, Initial::Int(0)),
    slot!(Column, "implicitHeight", 8 => Int, Initial::Int(0); true, true),
    slot!(Column, "spacing", 37 => Int, Initial::Int(0)),
    slot!(MouseArea, "pressed", 37 => Bool, Initial::Bool(false); true, false),
    slot!(MouseArea, "mouseY", 39 => Int, Initial::Int(0); true, false),
    slot!(Timer, "interval", 1 => Int, Initial::Int(1000)),
    slot!(Timer, "triggeredOnStart", 4 => Bool, Initial::Bool(false)),
    slot!(Loader, "active", 37 => Bool, Initial::Bool(true)),
    slot!(Loader, "sourceComponent", 40 => Component, Initial::Null),
    slot!(Loader, "status", 41 => Int, Initial::Int(0); true, false),
    slot!(Loader, "item", 42 => Obj, Initial::Null; true, false),
];

static NO_SLOTS: [(BuiltIn, &str); 10] = [
    (BuiltIn::QtObject, "x"),
    (BuiltIn::Component, "item"),
    (BuiltIn::Timer, "width"),
    (BuiltIn::Item, "color"),
    (BuiltIn::Item, "anchors"),
    (BuiltIn::Item, "leftMargin"),
    (BuiltIn::Item, "anchors.baseline"),
    (BuiltIn::Item, "Width"),
    (BuiltIn::Item, ""),
    (BuiltIn::Column, "layoutDirection"),
];

fn is_found(case: &SlotCase) -> bool {
    let t = case.built_in;
    find(t, case.path) == Some(Slot { index: case.index })
        && case.index < slot_count(t)
        && slot_at(t, case.index) == case.info
        && slot_path(t, case.index) == case.path
}

#[test]
fn slots(rt: HostRuntime) {
    for case in &SLOTS {
        assert!(rt; is_found(case));
    }
    for (t, path) in NO_SLOTS {
        assert!(rt; find(t, path).is_none());
    }
}

/// A name, and the number of the type's signal and method of that name.
struct NameCase {
    built_in: BuiltIn,
    name: &'static str,
    signal: Option<u16>,
    method: Option<u16>,
}

macro_rules! name {
    ($built_in:ident, $name:literal => $signal:expr, $method:expr) => {
        NameCase {
            built_in: BuiltIn::$built_in,
            name: $name,
            signal: $signal,
            method: $method,
        }
    };
}

static NAMES: [NameCase; 12] = [
    name!(MouseArea, "pressed" => Some(0), None),
    name!(MouseArea, "released" => Some(1), None),
    name!(MouseArea, "clicked" => Some(2), None),
    name!(Timer, "triggered" => Some(0), None),
    name!(Loader, "loaded" => Some(0), None),
    name!(Item, "pressed" => None, None),
    name!(MouseArea, "triggered" => None, None),
    name!(Loader, "" => None, None),
    name!(Timer, "start" => None, Some(0)),
    name!(Timer, "stop" => None, Some(1)),
    name!(Timer, "restart" => None, Some(2)),
    name!(Loader, "start" => None, None),
];

// How many arguments the signal of that number has, where there is one.
fn arguments(t: BuiltIn, index: u16) -> Option<u32> {
    (index < signal_count(t)).then(|| signal_args(t, index))
}

#[test]
fn signals_and_methods(rt: HostRuntime) {
    for case in &NAMES {
        let t = case.built_in;
        assert!(rt; signal(t, case.name) == case.signal && method(t, case.name) == case.method);
    }
    for (t, index, count) in [
        (BuiltIn::MouseArea, 2, Some(2)),
        (BuiltIn::MouseArea, 3, None),
        (BuiltIn::Timer, 0, Some(0)),
    ] {
        assert!(rt; arguments(t, index) == count);
    }
}
