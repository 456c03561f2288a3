//! A store with a few names.
ghost use Rattle.std.specs.Prelude.{◌≡◌};
ghost use Rattle.expr_eval.specs.Senses.{entry_named};
ghost use Rattle.eval_tests.specs.Fakes.{places, things};

use expr_eval::{Callees, Found, Frame, GlobalName, GroupName, Method, Reader};
use qml_ast::{Expr, Name, Place, Side, Value};
use shared_value::Shared;
use sqlite_items::Items;

/// A method with what it returns.
#[derive(Drop)]
pub struct Returned {
    pub params: Items<Name>,
    pub body: Shared<Expr>,
}

/// A store of one object, of serial 5, whose slots are numbered. Its first slots have their values already.
#[derive(Drop)]
pub struct Fake {
    pub values: Items<Value>,
    pub clean: u32,
    pub methods: Items<Returned>,
    pub null: Value,
}

impl Reader for Fake {
    ghost use Rattle.eval_tests.specs.Fakes.{fake_means, fake_clean};

    ghost means = { fake_means };

    ghost clean = { fake_clean };

    fn look(&self, _frame: Frame, name: &Name) -> Found {
        let name = name.as_str();
        match place_named(name) {
            Some(found) => found,
            None => thing_named(name).unwrap_or(Found::None),
        }
    }

    fn member(&self, _of: u64, group: Option<GroupName>, name: &Name) -> Found {
        let name = name.as_str();
        match group {
            Some(_) if name == "fill" => at(4),
            Some(_) => Found::None,
            None => place_named(name).unwrap_or(Found::None),
        }
    }

    fn read(&self, place: Place) -> Option<&Value> {
        if place.slot >= self.clean {
            return None;
        }
        match sqlite_items::at(self.values.as_slice(), place.slot as usize) {
            Some(value) => Some(value),
            None => Some(&self.null),
        }
    }

    fn method(&self, _of: u64, method: u32) -> Option<Method<'_>> {
        let returned = sqlite_items::at(self.methods.as_slice(), method as usize)?;
        Some(Method {
            frame: Frame {
                context: 1,
                scope: 5,
            },
            params: returned.params.as_slice(),
            body: returned.body.get(),
        })
    }
}

impl Callees for Fake {
    ghost use Rattle.eval_tests.specs.Fakes.{fake_arities};

    ghost arities = { λ fake. fake_arities };

    fn method_arity(&self, _of: u64, method: u32) -> Option<usize> {
        if method < 3 {
            Some(1)
        } else if method == 9 {
            Some(0)
        } else {
            None
        }
    }

    fn signal_arity(&self, _of: u64, signal: u32) -> Option<usize> {
        if signal == 0 { Some(2) } else { None }
    }
}

fn at(slot: u32) -> Found
    ensures { result ≡ Found.Place (record { serial = 5; slot = slot; side = Side.Shown }) }
{
    Found::Place(Place {
        serial: 5,
        slot,
        side: Side::Shown,
    })
}

fn place_named(name: &str) -> Option<Found>
    ensures { result ≡ entry_named name.now places }
{
    let slot = match name {
        "n" => 0,
        "s" => 1,
        "b" => 2,
        "col" => 3,
        "o" => 4,
        "nul" => 5,
        "line" => 6,
        "later" => 7,
        _ => return None,
    };
    Some(at(slot))
}

fn thing_named(name: &str) -> Option<Found>
    ensures { result ≡ entry_named name.now things }
{
    match name {
        "other" => Some(Found::Object(5)),
        "anchors" => Some(Found::Group(5, GroupName::Anchors)),
        "finished" => Some(Found::Signal(5, 0)),
        "twice" => Some(Found::Method(5, 0)),
        "down" => Some(Found::Method(5, 1)),
        "free" => Some(Found::Method(5, 2)),
        "start" => Some(Found::Method(5, 9)),
        "lost" => Some(Found::Method(5, 7)),
        "muted" => Some(Found::Signal(5, 1)),
        "Qt" => Some(Found::Global(GlobalName::Qt)),
        "Math" => Some(Found::Global(GlobalName::Math)),
        "console" => Some(Found::Global(GlobalName::Console)),
        "Loader" => Some(Found::Global(GlobalName::Loader)),
        _ => None,
    }
}
