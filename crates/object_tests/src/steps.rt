//! What is done to a store and told of it.

use crate::found::stands_for;
use crate::runs::{
    Method, Run, Signal, is_handler, is_method, is_no_handler, is_no_signal, is_signal,
};
use expr_eval::{Found, Frame};
use object_tree::Objects;
use qml_ast::{DocFault, EvalFault, Place, Text, Value};
use std::alloc::Global;

/// Something that is told of a store, or done to it.
pub enum Step {
    /// How many objects there are.
    Live(usize),
    /// How many places they have.
    Places(usize),
    /// The child of an object at that index.
    Child(u64, usize, Option<u64>),
    /// The item in which an object stands.
    Parent(u64, Option<u64>),
    /// What an object owns.
    Owned(u64, &'static [u64]),
    /// The object to which a place refers; 0 is null.
    Refers(Place, u64),
    /// The text that a place shows.
    Shows(Place, &'static str),
    /// Whether a place is bound to an expression.
    Bound(Place, bool),
    /// Whether a place was given something.
    Given(Place, bool),
    /// Whether a place is kept as one of an ignored anchor.
    Ignored(Place, bool),
    /// What a name stands for in an expression of that frame.
    Name(Frame, &'static str, Found),
    /// The handler of an object after so many others.
    Handler(u64, u32, Run),
    /// An object has no more handlers than that.
    NoHandler(u64, u32),
    Signal(Signal),
    /// The object 3 has no signal of that number.
    NoSignal(u32),
    Method(Method),
    /// The object 3 has no method of that number.
    NoMethod(u32),
    /// A document's write of a number, and its answer.
    Number(Place, i32, Result<(), EvalFault>),
    /// A document's write of a text, and its answer.
    Text(Place, &'static str, Result<(), EvalFault>),
    /// Keeping the places of ignored anchors.
    Keep(&'static [Place]),
}

// How many places a store has, up to a thousand.
fn place_count(objects: &Objects) -> usize {
    let mut at = None;
    for count in 0..1000 {
        match objects.next_place(at) {
            Some(place) => at = Some(place),
            None => return count,
        }
    }
    1000
}

// Whether a place holds a reference to that object.
fn refers(objects: &Objects, place: Place, serial: u64) -> bool {
    match objects.value(place) {
        Some(Value::Obj(held)) => *held == serial,
        _ => false,
    }
}

// Whether a place shows a text.
fn shows(objects: &Objects, place: Place, text: &str) -> bool {
    match objects.value(place) {
        Some(Value::Str(held)) => held.as_str() == text,
        _ => false,
    }
}

// Whether the write of a text has that answer.
fn is_text_written(
    alloc: Global,
    objects: &mut Objects,
    place: Place,
    text: &str,
    answer: Result<(), EvalFault>,
) -> Result<bool, DocFault> {
    if text.len() > 100 {
        return Err(DocFault::NoMemory);
    }
    let text = Text::new(alloc, text)?;
    Ok(objects.set_base(alloc, place, Value::Str(text)) == answer)
}

// Whether that is so of a store.
fn is_told(alloc: Global, objects: &Objects, step: &Step) -> Result<bool, DocFault> {
    match step {
        Step::Live(count) => Ok(objects.live() == *count),
        Step::Places(count) => Ok(place_count(objects) == *count),
        Step::Child(serial, at, child) => Ok(objects.child(*serial, *at) == *child),
        Step::Parent(serial, item) => Ok(objects.item_parent(*serial) == *item),
        Step::Owned(serial, owned) => Ok(objects.owned(*serial) == *owned),
        Step::Refers(place, serial) => Ok(refers(objects, *place, *serial)),
        Step::Shows(place, text) => Ok(shows(objects, *place, text)),
        Step::Bound(place, is_bound) => Ok(objects.binding(*place).is_some() == *is_bound),
        Step::Given(place, is_given) => Ok(objects.is_set(*place) == *is_given),
        Step::Ignored(place, was_ignored) => Ok(objects.was_ignored(*place) == *was_ignored),
        Step::Name(frame, name, found) => stands_for(alloc, objects, *frame, name, *found),
        Step::Handler(serial, index, run) => is_handler(alloc, objects, *serial, *index, run),
        Step::NoHandler(serial, index) => is_no_handler(alloc, objects, *serial, *index),
        Step::Signal(signal) => is_signal(alloc, objects, signal),
        Step::NoSignal(number) => Ok(is_no_signal(objects, *number)),
        Step::Method(method) => is_method(alloc, objects, method),
        Step::NoMethod(number) => Ok(objects.method_arity(3, *number).is_none()),
        Step::Number(..) | Step::Text(..) | Step::Keep(_) => Ok(false),
    }
}

// Whether a step holds, once it is done.
fn holds(alloc: Global, objects: &mut Objects, step: &Step) -> Result<bool, DocFault> {
    match step {
        Step::Number(place, number, answer) => {
            Ok(objects.set_base(alloc, *place, Value::Int(*number)) == *answer)
        }
        Step::Text(place, text, answer) => is_text_written(alloc, objects, *place, text, *answer),
        Step::Keep(places) => {
            objects.keep_ignored(alloc, places)?;
            Ok(true)
        }
        told => is_told(alloc, objects, told),
    }
}

/// How many steps hold before the first one that doesn't.
pub fn count(alloc: Global, objects: &mut Objects, steps: &[Step]) -> Result<usize, DocFault> {
    for (at, step) in steps.iter().enumerate() {
        if !holds(alloc, objects, step)? {
            return Ok(at);
        }
    }
    Ok(steps.len())
}
