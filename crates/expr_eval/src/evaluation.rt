ghost use Rattle.std.specs.Prelude.{◌≡◌, [], map, IfOk};
ghost use Rattle.expr_eval.specs.Evaluation.{evaluated, value, values, is_value, body, meant, member, call, function_call, method_call, prefixed, joined, either, chosen};
ghost use Rattle.expr_eval.specs.Progress.{Gives, Grows, bind};

use crate::answer::Eval;
use crate::found::Frame;
use crate::functions::{Function, applied, takes};
use crate::locals::Locals;
use crate::members::{as_value, member, named};
use crate::operators::{binary, unary};
use crate::progress::{Halt, Progress, visit_node};
use crate::reader::Reader;
use crate::sense::Sense;
use crate::trace::Trace;
use qml_ast::{BinOp, EvalFault, Expr, Name, UnOp, Value, truth};
use sqlite_items::Items;
use std::alloc::{AllocError, Global};
use std::mem;

/// How many calls may nest in each other in one evaluation.
pub(crate) const MOST_CALLS: u32 = 64;

/// Evaluates an expression in a frame with its locals, over the places that `reader` reads. Each place
/// that is read is noted in `trace`, after those that stand there already. Operands and arguments are
/// evaluated from left to right before their kinds are judged, and the first fault is the answer.
///
/// The faults are those of the arithmetic of values, and
/// - `UnknownName` for a name or a member that stands for nothing,
/// - `NullMember` for a member of null,
/// - `WrongKind` for a member of another value that is no object; for a group, a global, a method, a
///   signal, a function or the mouse where a value is wanted; for a call of anything but a function of
///   `Math` or a method whose body is one `return`; and for another number or other kinds of arguments,
/// - `TooMuch` at the 100,001st node visited, and at the 65th call within calls.
///
/// Where a place is read that has no value yet, the answer is `Needs`, and the place is not noted.
///
/// # Errors
///
/// `AllocError` if memory runs out.
pub fn eval<R: Reader>(
    alloc: Global,
    e: &Expr,
    frame: Frame,
    locals: &Locals,
    reader: &R,
    trace: &mut Trace,
) -> Result<Eval, AllocError>
    ensures { IfOk result (λ answer. evaluated (R.clean reader.now) (R.means reader.now) e.now frame locals.now trace.old ≡ (answer, trace.new)) }
{
    let mut progress = Progress {
        nodes: 0,
        trace: mem::replace(trace, Trace::new(alloc)),
    };
    let at = Setting {
        alloc,
        frame,
        locals,
        reader,
        calls: MOST_CALLS,
    };
    let outcome = value(e, &at, &mut progress);
    let Progress { trace: noted, .. } = progress;
    *trace = noted;
    match outcome {
        Ok(value) => Ok(Eval::Is(value)),
        Err(Halt::Faulted(fault)) => Ok(Eval::Faulted(fault)),
        Err(Halt::Needs(place)) => Ok(Eval::Needs(place)),
        Err(Halt::NoMemory) => Err(AllocError),
    }
}

/// Where an expression stands.
#[derive_where(Clone, Copy)]
pub(crate) struct Setting<'a, R> {
    pub(crate) alloc: Global,
    pub(crate) frame: Frame,
    pub(crate) locals: &'a Locals,
    pub(crate) reader: &'a R,
    /// How many more calls may nest.
    pub(crate) calls: u32,
}

// The value of an expression. What stands for a place is read.
#[cycle(evaluation)]
#[tactic(auto, using(crate::proofs::Stops::stops))]
fn value<R: Reader>(e: &Expr, at: &Setting<'_, R>, progress: &mut Progress) -> Result<Value, Halt>
    ensures value { Gives (value (R.clean at.now.reader.now) (R.means at.now.reader.now) (meant (R.clean at.now.reader.now) (R.means at.now.reader.now) at.now.calls e.now) (at.now.frame, at.now.locals.now) progress.old) result progress.new }
    ensures grows { Grows progress.old progress.new }
{
    let sense = sense(e, at, progress)?;
    as_value(at.alloc, sense, at.reader, progress)
}

// The value of an expression, as what another one stands for.
#[cycle(evaluation)]
#[tactic(auto, using(crate::proofs::Stops::stops))]
fn sense_of_value<R: Reader>(
    e: &Expr,
    at: &Setting<'_, R>,
    progress: &mut Progress,
) -> Result<Sense, Halt>
    ensures value { Gives (is_value (value (R.clean at.now.reader.now) (R.means at.now.reader.now) (meant (R.clean at.now.reader.now) (R.means at.now.reader.now) at.now.calls e.now) (at.now.frame, at.now.locals.now)) progress.old) result progress.new }
    ensures grows { Grows progress.old progress.new }
{
    let value = value(e, at, progress)?;
    Ok(Sense::Is(value))
}

/// What an expression stands for. Each visit of a node counts.
#[cycle(evaluation)]
#[tactic(auto, using(crate::proofs::Stops::stops))]
pub(crate) fn sense<R: Reader>(
    e: &Expr,
    at: &Setting<'_, R>,
    progress: &mut Progress,
) -> Result<Sense, Halt>
    ensures value { Gives (meant (R.clean at.now.reader.now) (R.means at.now.reader.now) at.now.calls e.now (at.now.frame, at.now.locals.now) progress.old) result progress.new }
    ensures grows { Grows progress.old progress.new }
{
    visit_node(progress)?;
    match e {
        Expr::Lit(value) => Ok(Sense::Is(value.copy(at.alloc)?)),
        Expr::Name(name) => named(at.alloc, name, at.frame, at.locals, at.reader),
        Expr::Member(of, name) => member_of(of.get(), name, at, progress),
        Expr::Call(callee, arguments) => called(callee.get(), arguments.as_slice(), at, progress),
        Expr::Unary(operator, operand) => prefixed(*operator, operand.get(), at, progress),
        Expr::Binary(operator, left, right) => {
            joined(*operator, left.get(), right.get(), at, progress)
        }
        Expr::And(left, right) => either(false, left.get(), right.get(), at, progress),
        Expr::Or(left, right) => either(true, left.get(), right.get(), at, progress),
        Expr::Cond(condition, then, otherwise) => {
            chosen(condition.get(), then.get(), otherwise.get(), at, progress)
        }
    }
}

#[cycle(evaluation)]
#[tactic(auto, using(crate::proofs::Stops::stops))]
fn member_of<R: Reader>(
    of: &Expr,
    name: &Name,
    at: &Setting<'_, R>,
    progress: &mut Progress,
) -> Result<Sense, Halt>
    ensures value { Gives (bind (meant (R.clean at.now.reader.now) (R.means at.now.reader.now) at.now.calls of.now (at.now.frame, at.now.locals.now)) (member (R.clean at.now.reader.now) (R.means at.now.reader.now) name.now) progress.old) result progress.new }
    ensures grows { Grows progress.old progress.new }
{
    let of = sense(of, at, progress)?;
    member(at.alloc, of, name, at.reader, progress)
}

#[cycle(evaluation)]
#[tactic(auto, using(crate::proofs::Stops::stops))]
fn prefixed<R: Reader>(
    operator: UnOp,
    operand: &Expr,
    at: &Setting<'_, R>,
    progress: &mut Progress,
) -> Result<Sense, Halt>
    ensures value { Gives (prefixed (R.clean at.now.reader.now) (R.means at.now.reader.now) operator (meant (R.clean at.now.reader.now) (R.means at.now.reader.now) at.now.calls operand.now) (at.now.frame, at.now.locals.now) progress.old) result progress.new }
    ensures grows { Grows progress.old progress.new }
{
    let operand = value(operand, at, progress)?;
    unary(operator, &operand)
}

// Both operands are evaluated, the left one first.
#[cycle(evaluation)]
#[tactic(auto, using(crate::proofs::Stops::stops))]
fn joined<R: Reader>(
    operator: BinOp,
    left: &Expr,
    right: &Expr,
    at: &Setting<'_, R>,
    progress: &mut Progress,
) -> Result<Sense, Halt>
    ensures value { Gives (joined (R.clean at.now.reader.now) (R.means at.now.reader.now) operator (meant (R.clean at.now.reader.now) (R.means at.now.reader.now) at.now.calls left.now) (meant (R.clean at.now.reader.now) (R.means at.now.reader.now) at.now.calls right.now) (at.now.frame, at.now.locals.now) progress.old) result progress.new }
    ensures grows { Grows progress.old progress.new }
{
    let left = value(left, at, progress)?;
    let right = value(right, at, progress)?;
    binary(at.alloc, operator, &left, &right)
}

// The left operand is the value where its truth is the deciding one, and otherwise the right one is.
#[cycle(evaluation)]
#[tactic(auto, using(crate::proofs::Stops::stops))]
fn either<R: Reader>(
    deciding: bool,
    left: &Expr,
    right: &Expr,
    at: &Setting<'_, R>,
    progress: &mut Progress,
) -> Result<Sense, Halt>
    ensures value { Gives (either (R.clean at.now.reader.now) (R.means at.now.reader.now) deciding (meant (R.clean at.now.reader.now) (R.means at.now.reader.now) at.now.calls left.now) (meant (R.clean at.now.reader.now) (R.means at.now.reader.now) at.now.calls right.now) (at.now.frame, at.now.locals.now) progress.old) result progress.new }
    ensures grows { Grows progress.old progress.new }
{
    let left = value(left, at, progress)?;
    if truth(&left) == deciding {
        return Ok(Sense::Is(left));
    }
    sense_of_value(right, at, progress)
}

#[cycle(evaluation)]
#[tactic(auto, using(crate::proofs::Stops::stops))]
fn chosen<R: Reader>(
    condition: &Expr,
    then: &Expr,
    otherwise: &Expr,
    at: &Setting<'_, R>,
    progress: &mut Progress,
) -> Result<Sense, Halt>
    ensures value { Gives (chosen (R.clean at.now.reader.now) (R.means at.now.reader.now) (meant (R.clean at.now.reader.now) (R.means at.now.reader.now) at.now.calls condition.now) (meant (R.clean at.now.reader.now) (R.means at.now.reader.now) at.now.calls then.now) (meant (R.clean at.now.reader.now) (R.means at.now.reader.now) at.now.calls otherwise.now) (at.now.frame, at.now.locals.now) progress.old) result progress.new }
    ensures grows { Grows progress.old progress.new }
{
    let condition = value(condition, at, progress)?;
    if truth(&condition) {
        sense_of_value(then, at, progress)
    } else {
        sense_of_value(otherwise, at, progress)
    }
}

#[cycle(evaluation)]
#[tactic(auto, using(crate::proofs::Stops::stops))]
fn called<R: Reader>(
    callee: &Expr,
    arguments: &[Expr],
    at: &Setting<'_, R>,
    progress: &mut Progress,
) -> Result<Sense, Halt>
    ensures value { Gives (bind (meant (R.clean at.now.reader.now) (R.means at.now.reader.now) at.now.calls callee.now (at.now.frame, at.now.locals.now)) (λ sense. is_value (call (R.clean at.now.reader.now) (R.means at.now.reader.now) (body (R.clean at.now.reader.now) (R.means at.now.reader.now) at.now.calls) (map (meant (R.clean at.now.reader.now) (R.means at.now.reader.now) at.now.calls) arguments.now) (at.now.frame, at.now.locals.now) sense)) progress.old) result progress.new }
    ensures grows { Grows progress.old progress.new }
{
    let callee = sense(callee, at, progress)?;
    match callee {
        Sense::Function(function) => function_call(function, arguments, at, progress),
        Sense::Method(of, method) => method_call(of, method, arguments, at, progress),
        Sense::Is(_)
        | Sense::At(_)
        | Sense::Group(..)
        | Sense::Signal(..)
        | Sense::Global(_)
        | Sense::Mouse(..) => Err(Halt::Faulted(EvalFault::WrongKind)),
    }
}

/// The value of a function's call. The number of arguments is tested before they are evaluated.
#[cycle(evaluation)]
#[tactic(auto, using(crate::proofs::Stops::stops))]
pub(crate) fn function_call<R: Reader>(
    function: Function,
    arguments: &[Expr],
    at: &Setting<'_, R>,
    progress: &mut Progress,
) -> Result<Sense, Halt>
    ensures value { Gives (is_value (function_call (R.clean at.now.reader.now) (R.means at.now.reader.now) function (map (meant (R.clean at.now.reader.now) (R.means at.now.reader.now) at.now.calls) arguments.now) (at.now.frame, at.now.locals.now)) progress.old) result progress.new }
    ensures grows { Grows progress.old progress.new }
{
    if !takes(function, arguments.len()) {
        return Err(Halt::Faulted(EvalFault::WrongKind));
    }
    let arguments = values(arguments, at, progress)?;
    applied(function, arguments.as_slice())
}

// Whether a further call may nest is tested after the arguments.
#[cycle(evaluation)]
#[tactic(auto, using(crate::proofs::Stops::stops))]
fn method_call<R: Reader>(
    of: u64,
    method: u32,
    arguments: &[Expr],
    at: &Setting<'_, R>,
    progress: &mut Progress,
) -> Result<Sense, Halt>
    ensures value { Gives (is_value (method_call (R.clean at.now.reader.now) (R.means at.now.reader.now) (body (R.clean at.now.reader.now) (R.means at.now.reader.now) at.now.calls) ((R.means at.now.reader.now).method of method) (map (meant (R.clean at.now.reader.now) (R.means at.now.reader.now) at.now.calls) arguments.now) (at.now.frame, at.now.locals.now)) progress.old) result progress.new }
    ensures grows { Grows progress.old progress.new }
{
    let Some(method) = at.reader.method(of, method) else {
        return Err(Halt::Faulted(EvalFault::WrongKind));
    };
    if arguments.len() != method.params.len() {
        return Err(Halt::Faulted(EvalFault::WrongKind));
    }
    let arguments = values(arguments, at, progress)?;
    let locals = Locals::of_call(at.alloc, method.params, arguments.as_slice())?;
    body_value(method.body, method.frame, &locals, at, progress)
}

// The value of a method's body.
#[cycle(evaluation)]
#[tactic(auto, using(crate::proofs::Stops::stops))]
fn body_value<R: Reader>(
    returned: &Expr,
    frame: Frame,
    locals: &Locals,
    at: &Setting<'_, R>,
    progress: &mut Progress,
) -> Result<Sense, Halt>
    ensures value { Gives (is_value (body (R.clean at.now.reader.now) (R.means at.now.reader.now) at.now.calls returned.now (frame, locals.now)) progress.old) result progress.new }
    ensures grows { Grows progress.old progress.new }
{
    if at.calls == 0 {
        return Err(Halt::Faulted(EvalFault::TooMuch));
    }
    let inside = Setting {
        alloc: at.alloc,
        frame,
        locals,
        reader: at.reader,
        calls: at.calls - 1,
    };
    sense_of_value(returned, &inside, progress)
}

/// The values of arguments, from left to right.
#[cycle(evaluation)]
#[tactic(auto, using(crate::proofs::Stops::stops))]
pub(crate) fn values<R: Reader>(
    arguments: &[Expr],
    at: &Setting<'_, R>,
    progress: &mut Progress,
) -> Result<Items<Value>, Halt>
    ensures value { Gives (values (R.clean at.now.reader.now) (R.means at.now.reader.now) [] (map (meant (R.clean at.now.reader.now) (R.means at.now.reader.now) at.now.calls) arguments.now) (at.now.frame, at.now.locals.now) progress.old) result progress.new }
    ensures grows { Grows progress.old progress.new }
{
    let mut values = Items::new(at.alloc);
    for argument in arguments {
        let value = value(argument, at, progress)?;
        values.push(value)?;
    }
    Ok(values)
}
