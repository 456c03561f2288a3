ghost use Rattle.std.specs.Prelude.{◌≡◌, ◌∷◌, nat_eq, map, option_map, IfOk};
ghost use Rattle.std.specs.Cmp.Lexicographic.{pointwise};
ghost use Rattle.std.specs.Map.{lookup};
ghost use Rattle.qml_types.specs.Known.{kind_words, kind_named};
ghost use Rattle.qml_types.specs.Placed.{kind_or_var, initial_of};
ghost use Rattle.qml_types.specs.Rules.{takes, takes_object};

use crate::known::Known;
use crate::type_ref::kind_of;
use qml_ast::{Name, Value};
use type_table::{Initial, Kind};

// A word for a kind.
#[derive(Clone, Copy)]
struct KindWord {
    word: &'static str,
    kind: Kind,
}

static WORDS: [KindWord; 9] = [
    KindWord {
        word: "int",
        kind: Kind::Int,
    },
    KindWord {
        word: "real",
        kind: Kind::Int,
    },
    KindWord {
        word: "double",
        kind: Kind::Int,
    },
    KindWord {
        word: "bool",
        kind: Kind::Bool,
    },
    KindWord {
        word: "string",
        kind: Kind::Str,
    },
    KindWord {
        word: "url",
        kind: Kind::Str,
    },
    KindWord {
        word: "color",
        kind: Kind::Color,
    },
    KindWord {
        word: "var",
        kind: Kind::Var,
    },
    KindWord {
        word: "variant",
        kind: Kind::Var,
    },
];

// What a property holds whose kind is that word.
fn kind_of_word(word: &str) -> Option<Kind>
    ensures { result ≡ lookup (pointwise nat_eq word.now) kind_words }
{
    for entry in &WORDS {
        if word == entry.word {
            return Some(entry.kind);
        }
    }
    None
}

/// What a property of the kind of that name holds. None where there is no such kind.
#[tactic(auto, unfolding(crate::specs::Known::kind_named))]
pub fn kind_named(known: &Known, name: &Name) -> Option<Kind>
    ensures { result ≡ kind_named known.now name.now }
{
    match kind_of_word(name.as_str()) {
        Some(kind) => Some(kind),
        None => match known.type_named(name) {
            Some(of) => Some(kind_of(of)),
            None => None,
        },
    }
}

/// The same, and `Var` where there is no such kind.
#[tactic(auto, unfolding(crate::specs::Placed::kind_or_var))]
pub fn kind_or_var(known: &Known, name: &Name) -> Kind
    ensures { result ≡ kind_or_var known.now name.now }
{
    kind_named(known, name).unwrap_or(Kind::Var)
}

/// What a property of this kind holds at first.
#[tactic(auto, unfolding(crate::specs::Placed::initial_of))]
pub fn initial_of(kind: Kind) -> Initial
    ensures { result ≡ initial_of kind }
{
    match kind {
        Kind::Int => Initial::Int(0),
        Kind::Bool => Initial::Bool(false),
        Kind::Str => Initial::Empty,
        Kind::Color => Initial::Color(0xff00_0000),
        Kind::Obj | Kind::Component => Initial::Null,
        Kind::Line | Kind::Var => Initial::NoLine,
    }
}

/// Whether a slot of this kind takes this literal. Whether a text spells a colour shows only when it is
/// evaluated.
#[tactic(auto, unfolding(crate::specs::Rules::takes))]
pub fn takes(kind: Kind, literal: &Value) -> bool
    ensures { result ≡ takes kind literal.now }
{
    match kind {
        Kind::Int => matches!(literal, Value::Int(_)),
        Kind::Bool => matches!(literal, Value::Bool(_)),
        Kind::Str => matches!(
            literal,
            Value::Str(_) | Value::Int(_) | Value::Bool(_) | Value::Color(_)
        ),
        Kind::Color => matches!(literal, Value::Color(_) | Value::Str(_)),
        Kind::Obj => matches!(literal, Value::Obj(_) | Value::Line(None)),
        Kind::Component => match literal {
            Value::Obj(serial) => *serial == 0,
            _ => false,
        },
        Kind::Line => matches!(literal, Value::Line(_)),
        Kind::Var => true,
    }
}

/// Whether a slot of this kind takes an object.
#[tactic(auto, unfolding(crate::specs::Rules::takes_object))]
pub fn takes_object(kind: Kind) -> bool
    ensures { result ≡ takes_object kind }
{
    matches!(kind, Kind::Obj | Kind::Component | Kind::Var)
}
