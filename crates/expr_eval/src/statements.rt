ghost use Rattle.std.specs.Prelude.{◌≡◌, map, IfOk};
ghost use Rattle.expr_eval.specs.Evaluation.{meant};
ghost use Rattle.expr_eval.specs.Progress.{Gives, Grows, bind};
ghost use Rattle.expr_eval.specs.Statements.{aimed, as_place, called, callee_called, dropped, function_called, sense_called, counted_values};

use crate::answer::{Aim, Called};
use crate::evaluation::{MOST_CALLS, Setting, function_call, sense, values};
use crate::found::Frame;
use crate::functions::Function;
use crate::locals::Locals;
use crate::progress::{Halt, Progress, visit_node};
use crate::reader::{Callees, Reader};
use crate::sense::Sense;
use crate::trace::Trace;
use qml_ast::{EvalFault, Expr, Place, Value};
use sqlite_items::Items;
use std::alloc::{AllocError, Global};
use std::mem;

/// Finds where the target of an assignment stands that is no local, in a frame with its locals. The places
/// that are read on the way are noted in `trace`, after those that stand there already; the target's own
/// place isn't read.
///
/// The faults are those of `eval` for the target's parts, and `WrongKind` for a target that stands for no
/// place.
///
/// # Errors
///
/// `AllocError` if memory runs out.
pub fn aim<R: Reader>(
    alloc: Global,
    target: &Expr,
    frame: Frame,
    locals: &Locals,
    reader: &R,
    trace: &mut Trace,
) -> Result<Aim, AllocError>
    ensures { IfOk result (λ answer. aimed (R.clean reader.now) (R.means reader.now) target.now frame locals.now trace.old ≡ (answer, trace.new)) }
{
    let mut progress = Progress {
        nodes: 0,
        trace: mem::replace(trace, Trace::new(alloc)),
    };
    let at = Setting {
        alloc,
        frame,
        locals,
        reader,
        calls: MOST_CALLS,
    };
    let outcome = place(target, &at, &mut progress);
    let Progress { trace: noted, .. } = progress;
    *trace = noted;
    match outcome {
        Ok(place) => Ok(Aim::At(place)),
        Err(Halt::Faulted(fault)) => Ok(Aim::Faulted(fault)),
        Err(Halt::Needs(place)) => Ok(Aim::Needs(place)),
        Err(Halt::NoMemory) => Err(AllocError),
    }
}

/// Finds what a call that stands as a whole statement calls, and evaluates its arguments from left to
/// right, in a frame with its locals. No method's body is run and no signal is emitted. Each place that is
/// read is noted in `trace`, after those that stand there already. Callee and arguments are one evaluation,
/// in which the call counts as a node.
///
/// The faults are those of `eval` for the callee and the arguments, and `WrongKind` for a callee that is no
/// method, signal or function, and for a wrong number of arguments, which is tested before they are
/// evaluated. `console.log` takes any number of them. Of what kinds the arguments of methods, of signals
/// and of `console.log` are isn't asked here.
///
/// # Errors
///
/// `AllocError` if memory runs out.
pub fn call<R: Callees>(
    alloc: Global,
    callee: &Expr,
    arguments: &[Expr],
    frame: Frame,
    locals: &Locals,
    reader: &R,
    trace: &mut Trace,
) -> Result<Called, AllocError>
    ensures { IfOk result (λ answer. called (R.clean reader.now) (R.means reader.now) (R.arities reader.now) callee.now arguments.now frame locals.now trace.old ≡ (answer, trace.new)) }
{
    let mut progress = Progress {
        nodes: 0,
        trace: mem::replace(trace, Trace::new(alloc)),
    };
    let at = Setting {
        alloc,
        frame,
        locals,
        reader,
        calls: MOST_CALLS,
    };
    let outcome = callee_called(callee, arguments, &at, &mut progress);
    let Progress { trace: noted, .. } = progress;
    *trace = noted;
    match outcome {
        Ok(called) => Ok(called),
        Err(Halt::Faulted(fault)) => Ok(Called::Faulted(fault)),
        Err(Halt::Needs(place)) => Ok(Called::Needs(place)),
        Err(Halt::NoMemory) => Err(AllocError),
    }
}

// The place that a target stands for. It isn't read.
#[tactic(auto, using(crate::proofs::Stops::stops))]
fn place<R: Reader>(
    target: &Expr,
    at: &Setting<'_, R>,
    progress: &mut Progress,
) -> Result<Place, Halt>
    ensures { Gives (bind (meant (R.clean at.now.reader.now) (R.means at.now.reader.now) at.now.calls target.now (at.now.frame, at.now.locals.now)) as_place progress.old) result progress.new }
{
    let target = sense(target, at, progress)?;
    match target {
        Sense::At(place) => Ok(place),
        Sense::Is(_)
        | Sense::Group(..)
        | Sense::Method(..)
        | Sense::Signal(..)
        | Sense::Global(_)
        | Sense::Function(_)
        | Sense::Mouse(..) => Err(Halt::Faulted(EvalFault::WrongKind)),
    }
}

#[tactic(auto, using(crate::proofs::Stops::stops))]
fn callee_called<R: Callees>(
    callee: &Expr,
    arguments: &[Expr],
    at: &Setting<'_, R>,
    progress: &mut Progress,
) -> Result<Called, Halt>
    ensures { Gives (callee_called (R.clean at.now.reader.now) (R.means at.now.reader.now) (R.arities at.now.reader.now) (meant (R.clean at.now.reader.now) (R.means at.now.reader.now) at.now.calls callee.now) (map (meant (R.clean at.now.reader.now) (R.means at.now.reader.now) at.now.calls) arguments.now) (at.now.frame, at.now.locals.now) progress.old) result progress.new }
{
    visit_node(progress)?;
    let callee = sense(callee, at, progress)?;
    sense_called(callee, arguments, at, progress)
}

#[tactic(auto, using(crate::proofs::Stops::stops))]
fn sense_called<R: Callees>(
    callee: Sense,
    arguments: &[Expr],
    at: &Setting<'_, R>,
    progress: &mut Progress,
) -> Result<Called, Halt>
    ensures { Gives (sense_called (R.clean at.now.reader.now) (R.means at.now.reader.now) (R.arities at.now.reader.now) (map (meant (R.clean at.now.reader.now) (R.means at.now.reader.now) at.now.calls) arguments.now) (at.now.frame, at.now.locals.now) callee progress.old) result progress.new }
{
    match callee {
        Sense::Method(of, method) => {
            let arity = at.reader.method_arity(of, method);
            let arguments = counted_values(arity, arguments, at, progress)?;
            Ok(Called::Method {
                of,
                method,
                arguments,
            })
        }
        Sense::Signal(of, signal) => {
            let arity = at.reader.signal_arity(of, signal);
            let arguments = counted_values(arity, arguments, at, progress)?;
            Ok(Called::Signal {
                of,
                signal,
                arguments,
            })
        }
        Sense::Function(function) => function_called(function, arguments, at, progress),
        Sense::Is(_) | Sense::At(_) | Sense::Group(..) | Sense::Global(_) | Sense::Mouse(..) => {
            Err(Halt::Faulted(EvalFault::WrongKind))
        }
    }
}

// The values of arguments, whose number is tested first.
#[tactic(auto, using(crate::proofs::Stops::stops))]
fn counted_values<R: Callees>(
    arity: Option<usize>,
    arguments: &[Expr],
    at: &Setting<'_, R>,
    progress: &mut Progress,
) -> Result<Items<Value>, Halt>
    ensures { Gives (counted_values (R.clean at.now.reader.now) (R.means at.now.reader.now) arity (map (meant (R.clean at.now.reader.now) (R.means at.now.reader.now) at.now.calls) arguments.now) (at.now.frame, at.now.locals.now) progress.old) result progress.new }
{
    match arity {
        Some(count) if count == arguments.len() => values(arguments, at, progress),
        _ => Err(Halt::Faulted(EvalFault::WrongKind)),
    }
}

#[tactic(auto, using(crate::proofs::Stops::stops))]
fn function_called<R: Callees>(
    function: Function,
    arguments: &[Expr],
    at: &Setting<'_, R>,
    progress: &mut Progress,
) -> Result<Called, Halt>
    ensures { Gives (function_called (R.clean at.now.reader.now) (R.means at.now.reader.now) function (map (meant (R.clean at.now.reader.now) (R.means at.now.reader.now) at.now.calls) arguments.now) (at.now.frame, at.now.locals.now) progress.old) result progress.new }
{
    match function {
        Function::Log => Ok(Called::Log(values(arguments, at, progress)?)),
        Function::Min
        | Function::Max
        | Function::Abs
        | Function::Floor
        | Function::Ceil
        | Function::Round => dropped(function, arguments, at, progress),
    }
}

// The value of a function's call is dropped.
#[tactic(auto, using(crate::proofs::Stops::stops), unfolding(crate::specs::Statements::dropped))]
fn dropped<R: Callees>(
    function: Function,
    arguments: &[Expr],
    at: &Setting<'_, R>,
    progress: &mut Progress,
) -> Result<Called, Halt>
    ensures { Gives (dropped (R.clean at.now.reader.now) (R.means at.now.reader.now) function (map (meant (R.clean at.now.reader.now) (R.means at.now.reader.now) at.now.calls) arguments.now) (at.now.frame, at.now.locals.now) progress.old) result progress.new }
{
    function_call(function, arguments, at, progress)?;
    Ok(Called::Done)
}
