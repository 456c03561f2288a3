ghost use Rattle.std.specs.Prelude.{◌≡◌, ℕ, ◌<◌, ◌≤◌, nat_eq, List, length, map, position};
ghost use Rattle.std.specs.List.{list_any};
ghost use Rattle.std.specs.Cmp.Lexicographic.{pointwise};
ghost use Rattle.type_table.specs.Names.{type_name, built_in_named, signals, methods, signal_args, place_in};
ghost use Rattle.type_table.specs.Slots.{is_item, has_group};

use crate::built_in::BuiltIn;

static BUILT_INS: [BuiltIn; 9] = [
    BuiltIn::QtObject,
    BuiltIn::Item,
    BuiltIn::Rectangle,
    BuiltIn::Row,
    BuiltIn::Column,
    BuiltIn::MouseArea,
    BuiltIn::Timer,
    BuiltIn::Loader,
    BuiltIn::Component,
];

static MOUSE_AREA_SIGNALS: [&str; 3] = ["pressed", "released", "clicked"];

static TIMER_SIGNALS: [&str; 1] = ["triggered"];

static LOADER_SIGNALS: [&str; 1] = ["loaded"];

static TIMER_METHODS: [&str; 3] = ["start", "stop", "restart"];

static ITEM_GROUPS: [&str; 2] = ["anchors", "childrenRect"];

static RECTANGLE_GROUPS: [&str; 3] = ["anchors", "childrenRect", "border"];

static NONE: [&str; 0] = [];

#[tactic(auto, unfolding(crate::specs::Names::built_in_named))]
/// The built-in type of that name. `None` where there is none.
pub fn builtin(name: &str) -> Option<BuiltIn>
    ensures { result ≡ built_in_named name.now }
{
    BUILT_INS.iter().copied().find(|t| name_of(*t) == name)
}

/// The number of the type's signal of that name: how many of its signals come before it. `None` where
/// it has none of that name. The signals that tell of changes of slots are not among them.
pub fn signal(built_in: BuiltIn, name: &str) -> Option<u16>
    ensures { result ≡ place_in (signals built_in) name.now }
{
    place_in(signals_of(built_in), name)
}

/// The number of the type's method of that name: how many of its methods come before it. `None` where
/// it has none of that name.
pub fn method(built_in: BuiltIn, name: &str) -> Option<u16>
    ensures { result ≡ place_in (methods built_in) name.now }
{
    place_in(methods_of(built_in), name)
}

/// How many signals the type has, those that tell of changes of slots left aside.
pub fn signal_count(built_in: BuiltIn) -> u16
    ensures { result ≡ length (signals built_in) }
{
    signals_of(built_in).len() as u16
}

/// How many methods the type has.
pub fn method_count(built_in: BuiltIn) -> u16
    ensures { result ≡ length (methods built_in) }
{
    methods_of(built_in).len() as u16
}

/// How many arguments the type's signal of that number has. The signals of `MouseArea` have two
/// integers, the coordinates of the mouse in the area, of which handlers make `mouse`.
pub fn signal_args(built_in: BuiltIn, _index: u16) -> u32
    requires { _index < length (signals built_in) }
    ensures { result ≡ signal_args built_in }
{
    match built_in {
        BuiltIn::MouseArea => 2,
        _ => 0,
    }
}

/// The type is `Item` or is based on it: every type but `QtObject`, `Timer` and `Component`.
pub fn is_item(built_in: BuiltIn) -> bool
    ensures { result ≡ is_item built_in }
{
    !matches!(
        built_in,
        BuiltIn::QtObject | BuiltIn::Timer | BuiltIn::Component
    )
}

/// The type has slots whose paths begin with this name and a dot: items have `anchors` and
/// `childrenRect`, and a rectangle has `border` too.
pub fn has_group(built_in: BuiltIn, name: &str) -> bool
    ensures { result ≡ has_group built_in name.now }
{
    is_among(groups_of(built_in), name)
}

fn name_of(built_in: BuiltIn) -> &'static str
    ensures { result.now ≡ type_name built_in }
{
    match built_in {
        BuiltIn::QtObject => "QtObject",
        BuiltIn::Item => "Item",
        BuiltIn::Rectangle => "Rectangle",
        BuiltIn::Row => "Row",
        BuiltIn::Column => "Column",
        BuiltIn::MouseArea => "MouseArea",
        BuiltIn::Timer => "Timer",
        BuiltIn::Loader => "Loader",
        BuiltIn::Component => "Component",
    }
}

// The signals of a type, in order.
fn signals_of(built_in: BuiltIn) -> &'static [&'static str]
    ensures names { map (λ n. n.now) result.now ≡ signals built_in }
    ensures few { length result.now ≤ 3 }
{
    match built_in {
        BuiltIn::MouseArea => &MOUSE_AREA_SIGNALS,
        BuiltIn::Timer => &TIMER_SIGNALS,
        BuiltIn::Loader => &LOADER_SIGNALS,
        _ => &NONE,
    }
}

// The methods of a type, in order.
fn methods_of(built_in: BuiltIn) -> &'static [&'static str]
    ensures names { map (λ n. n.now) result.now ≡ methods built_in }
    ensures few { length result.now ≤ 3 }
{
    match built_in {
        BuiltIn::Timer => &TIMER_METHODS,
        _ => &NONE,
    }
}

// The groups of a type.
#[tactic(auto, unfolding(crate::specs::Slots::slots))]
fn groups_of(built_in: BuiltIn) -> &'static [&'static str]
    ensures { (name : List ℕ) →
        list_any (λ group. pointwise nat_eq group.now name) result.now ≡ has_group built_in name }
{
    match built_in {
        BuiltIn::QtObject => &NONE,
        BuiltIn::Item => &ITEM_GROUPS,
        BuiltIn::Rectangle => &RECTANGLE_GROUPS,
        BuiltIn::Row => &ITEM_GROUPS,
        BuiltIn::Column => &ITEM_GROUPS,
        BuiltIn::MouseArea => &ITEM_GROUPS,
        BuiltIn::Timer => &NONE,
        BuiltIn::Loader => &ITEM_GROUPS,
        BuiltIn::Component => &NONE,
    }
}

// How many names come before this one.
fn place_in(names: &[&str], name: &str) -> Option<u16>
    requires { length names.now ≤ 3 }
    ensures { result ≡ place_in (map (λ n. n.now) names.now) name.now }
{
    match position_of(names, name) {
        Some(place) => Some(place as u16),
        None => None,
    }
}

fn position_of(names: &[&str], name: &str) -> Option<usize>
    ensures { result ≡ position (λ n. pointwise nat_eq n.now name.now) names.now }
{
    names.iter().position(|other| *other == name)
}

fn is_among(names: &[&str], name: &str) -> bool
    ensures { result ≡ list_any (λ n. pointwise nat_eq n.now name.now) names.now }
{
    names.iter().any(|other| *other == name)
}
