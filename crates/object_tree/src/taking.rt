ghost use Rattle.std.specs.Prelude.{◌≡◌};
ghost use Rattle.object_tree.specs.Reading.{instance_at, info_at};
ghost use Rattle.object_tree.specs.Taking.{taken, taken_int, taken_bool, taken_text, taken_color, taken_object, taken_line, component_at, taken_component, TakesOrNot, Sets};

use crate::objects::Objects;
use color_text::color_of;
use qml_ast::{EvalFault, Place, Value, to_text};
use std::alloc::Global;
use type_table::{BuiltIn, Kind};

fn take_int(value: Value) -> Result<Value, EvalFault>
    ensures { TakesOrNot (taken_int value) result }
{
    match value {
        Value::Int(n) => Ok(Value::Int(n)),
        _ => Err(EvalFault::WrongKind),
    }
}

fn take_bool(value: Value) -> Result<Value, EvalFault>
    ensures { TakesOrNot (taken_bool value) result }
{
    match value {
        Value::Bool(b) => Ok(Value::Bool(b)),
        _ => Err(EvalFault::WrongKind),
    }
}

fn take_text(alloc: Global, value: Value) -> Result<Value, EvalFault>
    ensures { TakesOrNot (taken_text value) result }
{
    match value {
        Value::Str(text) => Ok(Value::Str(text)),
        Value::Int(n) => Ok(Value::Str(to_text(alloc, &Value::Int(n))?)),
        Value::Bool(b) => Ok(Value::Str(to_text(alloc, &Value::Bool(b))?)),
        Value::Color(argb) => Ok(Value::Str(to_text(alloc, &Value::Color(argb))?)),
        _ => Err(EvalFault::WrongKind),
    }
}

fn take_color(value: Value) -> Result<Value, EvalFault>
    ensures { TakesOrNot (taken_color value) result }
{
    match value {
        Value::Color(argb) => Ok(Value::Color(argb)),
        Value::Str(text) => match color_of(text.as_str()) {
            Some(argb) => Ok(Value::Color(argb)),
            None => Err(EvalFault::WrongKind),
        },
        _ => Err(EvalFault::WrongKind),
    }
}

fn take_object(value: Value) -> Result<Value, EvalFault>
    ensures { TakesOrNot (taken_object value) result }
{
    match value {
        Value::Obj(serial) => Ok(Value::Obj(serial)),
        Value::Line(None) => Ok(Value::Obj(0)),
        _ => Err(EvalFault::WrongKind),
    }
}

fn take_line(value: Value) -> Result<Value, EvalFault>
    ensures { TakesOrNot (taken_line value) result }
{
    match value {
        Value::Line(line) => Ok(Value::Line(line)),
        _ => Err(EvalFault::WrongKind),
    }
}

impl Objects {
    // A component, or null.
    fn component_at(&self, serial: u64) -> Result<Value, EvalFault>
        ensures { TakesOrNot (component_at (instance_at serial self.now) serial) result }
    {
        match self.type_of(serial) {
            None => Ok(Value::Obj(0)),
            Some(BuiltIn::Component) => Ok(Value::Obj(serial)),
            Some(_) => Err(EvalFault::WrongKind),
        }
    }

    fn take_component(&self, value: Value) -> Result<Value, EvalFault>
        ensures { TakesOrNot (taken_component self.now value) result }
    {
        match value {
            Value::Obj(serial) => self.component_at(serial),
            _ => Err(EvalFault::WrongKind),
        }
    }

    /// A value as a slot of that kind takes it: a text takes numbers, truth values and colours by their texts, a
    /// colour takes a text that spells one, an object takes `undefined` as null, and a component only null and
    /// objects that are components. `WrongKind` exactly where the slot does not take it; the only other error is
    /// that memory ran out.
    pub fn take(&self, alloc: Global, kind: Kind, value: Value) -> Result<Value, EvalFault>
        ensures { TakesOrNot (taken self.now kind value) result }
    {
        match kind {
            Kind::Int => take_int(value),
            Kind::Bool => take_bool(value),
            Kind::Str => take_text(alloc, value),
            Kind::Color => take_color(value),
            Kind::Obj => take_object(value),
            Kind::Line => take_line(value),
            Kind::Component => self.take_component(value),
            Kind::Var => Ok(value),
        }
    }

    /// Writes a value to a place, as documents do, as the slot takes it: it takes the place of the expression that
    /// the slot was bound to. The place is the one on which the slot is set, where what is set and what is shown
    /// are two. Nothing changes where there is no such place.
    ///
    /// # Errors
    ///
    /// - `ReadOnly`: exactly where the slot is read-only, as all slots of a content item are.
    /// - `WrongKind`: else, exactly where the slot does not take the value.
    /// - `NoMemory`: memory ran out.
    ///
    /// After an error the objects are as before.
    pub fn set_base(&mut self, alloc: Global, place: Place, value: Value) -> Result<(), EvalFault>
        ensures { Sets (info_at place self.old) place value self.old self.new result }
    {
        let Some(info) = self.slot(place) else {
            return Ok(());
        };
        if info.read_only {
            return Err(EvalFault::ReadOnly);
        }
        match self.take(alloc, info.kind, value) {
            Ok(taken) => {
                self.set_own(place, taken);
                Ok(())
            }
            Err(fault) => Err(fault),
        }
    }
}
