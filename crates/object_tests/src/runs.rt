//! What documents declare of an object to be run.

use crate::found::is_member;
use crate::makes::{Case, held};
use crate::steps::Step;
use expr_eval::{Found, Frame};
use object_tree::{Handler, Objects};
use qml_ast::{DocFault, Path, Span};
use std::alloc::{AllocError, Global};
use std::test::Fail;

/// A handler: its path, in which frame its names are looked up, and where its path stands.
pub struct Run {
    path: (&'static str, Option<&'static str>),
    frame: Frame,
    span: Span,
}

/// A signal of the object 3: its number, its name, its arguments, and the names of its parameters, if a document
/// declares them.
pub struct Signal {
    number: u32,
    name: &'static str,
    arity: usize,
    params: &'static [&'static str],
}

/// A method of the object 3: its number, its name, its arguments, its statements, and whether expressions can call it.
pub struct Method {
    number: u32,
    name: &'static str,
    arity: usize,
    statements: usize,
    is_callable: bool,
}

// Whether a path has these names.
fn is_path(path: &Path, first: &str, second: Option<&str>) -> bool {
    let is_second = match &path.second {
        Some(name) => second == Some(name.as_str()),
        None => second.is_none(),
    };
    path.first.as_str() == first && is_second
}

// Whether a handler is as it is said to be, in the document of the file `Main.qml`.
fn is_run(handler: Handler<'_>, run: &Run) -> bool {
    is_path(handler.path, run.path.0, run.path.1)
        && handler.frame == run.frame
        && handler.component.get().file.as_str() == "Main.qml"
        && handler.span == run.span
}

// How many handlers an object has.
fn handler_count(alloc: Global, objects: &Objects, serial: u64) -> Result<usize, AllocError> {
    Ok(objects.handlers(alloc, serial)?.len())
}

/// Whether that is the object's handler after so many others.
pub fn is_handler(
    alloc: Global,
    objects: &Objects,
    serial: u64,
    index: u32,
    run: &Run,
) -> Result<bool, DocFault> {
    let count = handler_count(alloc, objects, serial)?;
    match objects.handler(serial, index) {
        Some(handler) => Ok(is_run(handler, run) && (index as usize) < count),
        None => Ok(false),
    }
}

/// Whether an object has no more handlers than that.
pub fn is_no_handler(
    alloc: Global,
    objects: &Objects,
    serial: u64,
    index: u32,
) -> Result<bool, DocFault> {
    let count = handler_count(alloc, objects, serial)?;
    Ok(objects.handler(serial, index).is_none() && count <= index as usize)
}

// Whether the parameters of a signal have these names.
fn are_params(objects: &Objects, signal: u32, names: &[&str]) -> bool {
    match objects.params(3, signal) {
        Some(params) => {
            params.len() == names.len()
                && params
                    .iter()
                    .zip(names)
                    .all(|(param, name)| param.0.as_str() == *name)
        }
        None => signal < 3 && names.is_empty(),
    }
}

/// Whether the object's signal of that name has that number, and is as it is said to be.
pub fn is_signal(alloc: Global, objects: &Objects, signal: &Signal) -> Result<bool, DocFault> {
    let number = signal.number;
    let is_found = is_member(alloc, objects, signal.name, Found::Signal(3, number))?;
    Ok(
        is_found
            && objects.signal_name(3, number) == Some(signal.name)
            && objects.signal_arity(3, number) == Some(signal.arity)
            && are_params(objects, number, signal.params),
    )
}

/// Whether the object has no signal of that number.
pub fn is_no_signal(objects: &Objects, number: u32) -> bool {
    objects.signal_name(3, number).is_none() && objects.signal_arity(3, number).is_none()
}

// Whether the object's method of that number is as it is said to be.
fn is_body(objects: &Objects, number: u32, statements: usize, is_callable: bool) -> bool {
    match objects.method(3, number) {
        Some(method) => {
            method.body.get().len() == statements
                && method.frame.scope == 3
                && objects.callable(3, number).is_some() == is_callable
        }
        None => false,
    }
}

/// Whether the object's method of that name has that number, and is as it is said to be.
pub fn is_method(alloc: Global, objects: &Objects, method: &Method) -> Result<bool, DocFault> {
    let number = method.number;
    let is_found = is_member(alloc, objects, method.name, Found::Method(3, number))?;
    Ok(
        is_found
            && objects.method_arity(3, number) == Some(method.arity)
            && is_body(objects, number, method.statements, method.is_callable),
    )
}

/// The handler of an object after so many others, by its path, the context and the object of its names, and its span.
macro_rules! handler {
    ($serial:literal, $index:literal => $first:literal, $second:expr, $context:literal, $scope:literal, $col:literal) => {
        Step::Handler(
            $serial,
            $index,
            Run {
                path: ($first, $second),
                frame: Frame {
                    context: $context,
                    scope: $scope,
                },
                span: Span { line: 1, col: $col },
            },
        )
    };
}

macro_rules! signal {
    ($number:literal => $name:literal, $arity:literal, $params:expr) => {
        Step::Signal(Signal {
            number: $number,
            name: $name,
            arity: $arity,
            params: $params,
        })
    };
}

macro_rules! method {
    ($number:literal => $name:literal, $arity:literal, $statements:literal, $is_callable:literal) => {
        Step::Method(Method {
            number: $number,
            name: $name,
            arity: $arity,
            statements: $statements,
            is_callable: $is_callable,
        })
    };
}

// The signal 1 has the name of a property too, and so no expression names it.
static RUN: Case = Case {
    first: "MouseArea { signal hit(int a, string b); Component.onCompleted: { } onHit: { } \
        function one(x) { return x + 1 } function two() { ; return 1 } }",
    text: "Item { onWidthChanged: { } A { signal far; onClicked: { } function three() { return } onFar: { } } }",
    steps: &[
        handler!(2, 0 => "onWidthChanged", None, 1, 2, 8),
        Step::NoHandler(2, 1),
        handler!(3, 0 => "Component", Some("onCompleted"), 2, 3, 42),
        handler!(3, 1 => "onHit", None, 2, 3, 69),
        handler!(3, 2 => "onClicked", None, 1, 3, 44),
        handler!(3, 3 => "onFar", None, 1, 3, 87),
        Step::NoHandler(3, 4),
        Step::NoHandler(1, 0),
        Step::NoHandler(9, 0),
        signal!(1 => "released", 2, &[]),
        signal!(2 => "clicked", 2, &[]),
        signal!(3 => "hit", 2, &["a", "b"]),
        signal!(4 => "far", 0, &[]),
        Step::NoSignal(5),
        method!(0 => "one", 1, 1, true),
        method!(1 => "two", 0, 2, false),
        method!(2 => "three", 0, 1, false),
        Step::NoMethod(3),
    ],
};

#[test]
fn what_is_run_is_as_documents_declare_it(rt: HostRuntime) -> Result<(), Fail> {
    let held = held(rt.alloc(), &RUN)?;
    assert_eq!(rt; held, RUN.steps.len());
    Ok(())
}
