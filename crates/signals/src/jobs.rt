ghost use Rattle.std.specs.Prelude.{◌≡◌, ◌++◌, [], true, codes, bytes_eq, IfSome, option_map, option_copied, string_bytes, IfOk};
ghost use Rattle.signals.specs.Assigning.{taken_or_wrong};
ghost use Rattle.signals.specs.Endings.{Gives};
ghost use Rattle.object_tree.specs.Taking.{taken};
ghost use Rattle.signals.specs.Jobs.{handles_signal, handles_completion, job_of, jobs_where, handled_name, kind_at, with_params, mouse_locals, signal_locals, is_handled_by, signal_count, signal_of, locals_for, handler_job, taken_arguments, method_job, handles};
ghost use Rattle.object_tree.specs.Handlers.{handler_seen, handlers_at, handler_at, signal_params_at, signal_name_at, method_at};
ghost use Rattle.object_tree.specs.Origins.{path_at};
ghost use Rattle.object_tree.specs.Reading.{instance_at};
ghost use Rattle.qml_types.specs.Scope.{begins_upper, with_lower};

use crate::ending::Stop;
use crate::job::{Body, Job, Site};
use crate::world::HandlerRef;
use expr_eval::{Local, Locals};
use object_tree::{Handler, Objects};
use qml_ast::{Name, Path, Place, Value};
use sqlite_items::Items;
use std::alloc::{AllocError, Global};
use type_table::Kind;

/// What handlers handle.
#[derive(Clone, Copy)]
pub(crate) enum Occasion<'a> {
    /// A signal of that name.
    Signal(&'a str),
    /// The object is there with all that stands beside it.
    Completion,
}

// The name of what a handler handles, after its `on`.
fn handled_name(handler: &str) -> Option<&str>
    ensures name { option_copied result ≡ handled_name handler.now }
    ensures upper { IfSome result (λ name. begins_upper name.now ≡ true) }
{
    let name = handler.strip_prefix("on")?;
    match name.as_bytes() {
        [first, ..] if first.is_ascii_uppercase() => Some(name),
        _ => None,
    }
}

// Whether the name is this one, which an upper-case letter begins, with that letter in lower case.
fn is_lowered(name: &[u8], upper: &[u8]) -> bool
    requires { begins_upper upper.now ≡ true }
    ensures { result ≡ bytes_eq name.now (with_lower upper.now) }
{
    match name {
        [first, rest @ ..] => *first == upper[0] + 32 && rest == &upper[1..],
        [] => false,
    }
}

// Whether a handler of that path handles a signal of this name.
#[tactic(auto, unfolding(crate::specs::Jobs::handles_signal))]
fn handles_signal(name: &str, path: &Path) -> bool
    ensures { result ≡ handles_signal name.now path.now }
{
    if path.second.is_some() {
        return false;
    }
    match handled_name(path.first.as_str()) {
        Some(handled) => is_lowered(name.as_bytes(), handled.as_bytes()) || name == handled,
        None => false,
    }
}

// Whether a handler of that path runs at an object's completion.
#[tactic(auto, unfolding(crate::specs::Jobs::handles_completion))]
fn handles_completion(path: &Path) -> bool
    ensures { result ≡ handles_completion path.now }
{
    match &path.second {
        Some(second) => path.first.as_str() == "Component" && second.as_str() == "onCompleted",
        None => false,
    }
}

impl Occasion<'_> {
    // Whether a handler of that path runs.
    fn is_handled(&self, path: &Path) -> bool
        ensures { result ≡ handles self.now path.now }
    {
        match self {
            Occasion::Signal(name) => handles_signal(name, path),
            Occasion::Completion => handles_completion(path),
        }
    }
}

// A handler's job.
fn job_of(alloc: Global, handler: &Handler<'_>, locals: &Locals) -> Result<Job, AllocError>
    ensures { IfOk result (λ job. job ≡ job_of (handler_seen handler.now) locals.now) }
{
    let component = handler.component.share()?;
    let body = Body::Handler(handler.body.share()?);
    let locals = locals.copy(alloc)?;
    Ok(Job {
        site: Site {
            frame: handler.frame,
            component,
            span: handler.span,
        },
        body,
        locals,
    })
}

/// The jobs of an object's handlers that run at that occasion, in the order of the handlers.
pub(crate) fn jobs(
    alloc: Global,
    objects: &Objects,
    of: u64,
    occasion: &Occasion<'_>,
    locals: &Locals,
) -> Result<Vec<Job>, AllocError>
    ensures { IfOk result (λ jobs. jobs.items ≡ jobs_where (handles occasion.now) locals.now (handlers_at of objects.now)) }
{
    let handlers = objects.handlers(alloc, of)?;
    let mut jobs = Vec::new(alloc);
    for handler in handlers.as_slice() {
        if occasion.is_handled(handler.path) {
            jobs.push(job_of(alloc, handler, locals)?)?;
        }
    }
    Ok(jobs)
}

// The locals of a signal's handlers: its parameters, with these arguments.
fn with_params(
    alloc: Global,
    params: &[(Name, Kind)],
    arguments: &[Value],
) -> Result<Locals, AllocError>
    ensures { IfOk result (λ locals. locals ≡ with_params (params.now) arguments.now []) }
{
    let mut locals = Locals::new(alloc);
    for (i, param) in params.iter().enumerate() {
        let Some(argument) = arguments.get(i) else {
            return Ok(locals);
        };
        let value = argument.copy(alloc)?;
        locals.declare(alloc, &param.0, Local::Plain(value), false)?;
    }
    Ok(locals)
}

// The locals of a mouse area's handlers.
fn mouse_locals(alloc: Global, arguments: &[Value]) -> Result<Locals, AllocError>
    ensures { IfOk result (λ locals. locals ≡ mouse_locals arguments.now) }
{
    let mut locals = Locals::new(alloc);
    if let [Value::Int(x), Value::Int(y)] = arguments {
        let name = Name::new(alloc, "mouse")?;
        locals.declare(alloc, &name, Local::Mouse(*x, *y), true)?;
    }
    Ok(locals)
}

/// The locals of the handlers of an object's signal of that number.
pub(crate) fn signal_locals(
    alloc: Global,
    objects: &Objects,
    of: u64,
    signal: u32,
    arguments: &[Value],
) -> Result<Locals, AllocError>
    ensures { IfOk result (λ locals. locals ≡ signal_locals (signal_params_at of signal objects.now) arguments.now) }
{
    match objects.params(of, signal) {
        Some(params) => with_params(alloc, params, arguments),
        None => mouse_locals(alloc, arguments),
    }
}

// Whether the object's signal of that number is one that a handler of that path handles.
fn is_handled_by(objects: &Objects, of: u64, signal: u32, path: &Path) -> bool
    ensures { result ≡ is_handled_by path.now (signal_name_at of signal objects.now) }
{
    match objects.signal_name(of, signal) {
        Some(name) => handles_signal(name, path),
        None => false,
    }
}

// How many signals an object has.
fn signal_count(objects: &Objects, of: u64) -> u32
    ensures { result ≡ signal_count (instance_at of objects.now) }
{
    match objects.instance(of) {
        Some(instance) => instance.signals,
        None => 0,
    }
}

// The first signal of the object that a handler of that path handles.
fn signal_of(objects: &Objects, of: u64, path: &Path) -> Option<u32>
    ensures { result ≡ signal_of of path.now objects.now }
{
    for signal in 0..signal_count(objects, of) {
        if is_handled_by(objects, of, signal, path) {
            return Some(signal);
        }
    }
    None
}

// The locals of a handler of that path, with the arguments of its signal.
fn handler_locals(
    alloc: Global,
    objects: &Objects,
    of: u64,
    path: &Path,
    arguments: &[Value],
) -> Result<Locals, AllocError>
    ensures { IfOk result (λ locals. locals ≡ locals_for (signal_of of path.now objects.now) of arguments.now objects.now) }
{
    match signal_of(objects, of, path) {
        Some(signal) => signal_locals(alloc, objects, of, signal, arguments),
        None => Ok(Locals::new(alloc)),
    }
}

/// The job of an object's handler of that number, with the arguments of its signal.
pub(crate) fn handler_job(
    alloc: Global,
    objects: &Objects,
    handler: HandlerRef,
    arguments: &[Value],
) -> Result<Option<Job>, AllocError>
    ensures { IfOk result (λ job. job ≡ handler_job handler.serial arguments.now objects.now (handler_at handler.serial handler.index objects.now)) }
{
    let Some(found) = objects.handler(handler.serial, handler.index) else {
        return Ok(None);
    };
    let locals = handler_locals(alloc, objects, handler.serial, found.path, arguments)?;
    Ok(Some(job_of(alloc, &found, &locals)?))
}

/// The name of an object's signal of that number.
pub(crate) fn signal_name(
    alloc: Global,
    objects: &Objects,
    of: u64,
    signal: u32,
) -> Result<Option<String>, AllocError>
    ensures { IfOk result (λ name. option_map string_bytes name ≡ signal_name_at of signal objects.now) }
{
    match objects.signal_name(of, signal) {
        Some(name) => Ok(Some(String::from_str(alloc, name)?)),
        None => Ok(None),
    }
}

/// The name of the signal that tells of a place's changes.
pub(crate) fn change_name(
    alloc: Global,
    objects: &Objects,
    place: Place,
) -> Result<Option<String>, AllocError>
    ensures { IfOk result (λ name. option_map string_bytes name ≡ option_map (λ path. path ++ codes "Changed") (path_at place objects.now)) }
{
    let Some(path) = objects.path(place) else {
        return Ok(None);
    };
    let mut name = String::from_str(alloc, path)?;
    name.push_str("Changed")?;
    Ok(Some(name))
}

// The kind of a signal's parameter of that number; those of built-in signals are numbers.
fn param_kind(params: Option<&[(Name, Kind)]>, number: usize) -> Kind
    ensures { result ≡ kind_at (option_copied params.entry) number }
{
    match params {
        Some(params) => match params.get(number) {
            Some(param) => param.1,
            None => Kind::Var,
        },
        None => Kind::Int,
    }
}

// An argument as the parameter of that number takes it. WrongKind where it is not taken.
fn taken_argument(
    alloc: Global,
    objects: &Objects,
    params: Option<&[(Name, Kind)]>,
    number: usize,
    argument: &Value,
) -> Result<Value, Stop>
    ensures { Gives (taken_or_wrong (taken objects.now (kind_at (option_copied params.entry) number) argument.now)) result }
{
    let argument = argument.copy(alloc)?;
    Ok(objects.take(alloc, param_kind(params, number), argument)?)
}

/// The arguments of an object's signal as its parameters take them. WrongKind where one of them is not taken.
#[tactic(auto, using(crate::proofs::Following::stops_then))]
pub(crate) fn taken_arguments(
    alloc: Global,
    objects: &Objects,
    of: u64,
    signal: u32,
    arguments: &[Value],
) -> Result<Items<Value>, Stop>
    ensures { Gives (taken_arguments objects.now (signal_params_at of signal objects.now) arguments.now) result }
{
    let params = objects.params(of, signal);
    let mut taken = Items::new(alloc);
    for (i, argument) in arguments.iter().enumerate() {
        let value = taken_argument(alloc, objects, params, i, argument)?;
        taken.push(value)?;
    }
    Ok(taken)
}

/// The job of an object's method of that number, if a document declares it. Its notes stand where those of its caller
/// do.
pub(crate) fn method_job(
    alloc: Global,
    objects: &Objects,
    of: u64,
    method: u32,
    arguments: &[Value],
    site: &Site,
) -> Result<Option<Job>, AllocError>
    ensures { IfOk result (λ job. job ≡ option_map (λ m. method_job site.now m arguments.now) (method_at of method objects.now)) }
{
    let Some(method) = objects.method(of, method) else {
        return Ok(None);
    };
    let locals = Locals::of_call(alloc, method.params, arguments)?;
    let body = Body::Method(method.body.share()?);
    let component = site.component.share()?;
    Ok(Some(Job {
        site: Site {
            frame: method.frame,
            component,
            span: site.span,
        },
        body,
        locals,
    }))
}
