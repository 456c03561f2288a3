ghost use Rattle.std.specs.Prelude.{◌≡◌, ◌≢◌, [], Ok, Err, option_copied};
ghost use Rattle.expr_eval.specs.Statements.{aimed};
ghost use Rattle.expr_eval.specs.Needs.{every};
ghost use Rattle.object_tree.specs.Settled.{meanings};
ghost use Rattle.signals.specs.Assigning.{local_target, held_value, compound, combined, set_place, writable, aimed_place, placed, assignment, right_in};
ghost use Rattle.signals.specs.Endings.{Gives, Leaves};
ghost use Rattle.signals.specs.Running.{to_local};
ghost use Rattle.expr_eval.specs.Names.{local_named};
ghost use Rattle.qml_ast.specs.declared.eval_fault.EvalFault.TheVariants as EvalFault;

use crate::ending::{Flow, Stop};
use crate::valuing::Setting;
use crate::world::World;
use expr_eval::{Aim, Local, Locals, Trace, aim};
use object_tree::Settled;
use qml_ast::{AssignOp, EvalFault, Expr, Name, Place, Side, Value, add, div, mul, sub};
use std::alloc::Global;

/// What stands on the right of an assignment.
#[derive(Clone, Copy)]
pub(crate) enum Right<'a> {
    Of(&'a Expr),
    /// The number 1, as `++` and `--` have it.
    One,
}

/// The local that a target names, if it names one.
pub(crate) fn local_target<'a>(target: &'a Expr, locals: &Locals) -> Option<&'a Name>
    ensures { option_copied result ≡ local_target target.now locals.now }
{
    match target {
        Expr::Name(name) => {
            locals.find(name)?;
            Some(name)
        }
        _ => None,
    }
}

// The value that comes of an old one and the one on the right.
fn compound(alloc: Global, op: AssignOp, old: &Value, right: Value) -> Result<Value, EvalFault>
    ensures { result ≢ Err EvalFault.NoMemory → result ≡ compound op old.now right }
{
    match op {
        AssignOp::Set => Ok(right),
        AssignOp::Add => add(alloc, old, &right),
        AssignOp::Sub => sub(old, &right),
        AssignOp::Mul => mul(old, &right),
        AssignOp::Div => div(old, &right),
    }
}

impl World {
    fn right_value(
        &self,
        right: Right<'_>,
        at: &Setting<'_>,
        locals: &Locals,
    ) -> Result<Value, Stop>
        ensures { Gives (right_in at.now.site.now.frame self.now.objects locals.now right.entry) result }
    {
        match right {
            Right::Of(e) => self.value(e, at, locals),
            Right::One => Ok(Value::Int(1)),
        }
    }

    // What an old value becomes by an assignment.
    fn combined(
        &self,
        op: AssignOp,
        old: &Value,
        right: Right<'_>,
        at: &Setting<'_>,
        locals: &Locals,
    ) -> Result<Value, Stop>
        ensures { Gives (combined op (Ok old.now) (right_in at.now.site.now.frame self.now.objects locals.now right.entry)) result }
    {
        let right = self.right_value(right, at, locals)?;
        Ok(compound(at.alloc, op, old, right)?)
    }

    /// Assigns to a local.
    pub(crate) fn assign_local(
        &self,
        name: &Name,
        op: AssignOp,
        right: Right<'_>,
        at: &Setting<'_>,
        locals: &mut Locals,
    ) -> Result<Flow, Stop>
        ensures { Leaves (to_local name.now op (right_in at.now.site.now.frame self.now.objects locals.old right.entry) self.now locals.old) result self.now locals.new }
    {
        let value = self.local_value(name, op, right, at, locals)?;
        locals.assign(name, value)?;
        Ok(Flow::Going)
    }

    // What a local becomes by an assignment.
    fn local_value(
        &self,
        name: &Name,
        op: AssignOp,
        right: Right<'_>,
        at: &Setting<'_>,
        locals: &Locals,
    ) -> Result<Value, Stop>
        ensures { Gives (combined op (held_value (local_named name.now locals.now)) (right_in at.now.site.now.frame self.now.objects locals.now right.entry)) result }
    {
        if op == AssignOp::Set {
            return self.right_value(right, at, locals);
        }
        match locals.find(name) {
            Some(Local::Plain(old)) => self.combined(op, old, right, at, locals),
            Some(Local::Mouse(..)) => Err(Stop::Fault(EvalFault::WrongKind)),
            None => Err(Stop::Fault(EvalFault::UnknownName)),
        }
    }

    // The place that a target stands for.
    fn aimed(&self, target: &Expr, at: &Setting<'_>, locals: &Locals) -> Result<Place, Stop>
        ensures { Gives (aimed_place (aimed every (meanings self.now.objects) target.now at.now.site.now.frame locals.now []).0) result }
    {
        let reader = Settled {
            objects: &self.objects,
        };
        let mut trace = Trace::new(at.alloc);
        match aim(at.alloc, target, at.site.frame, locals, &reader, &mut trace)? {
            Aim::At(place) => Ok(place),
            Aim::Faulted(fault) => Err(Stop::Fault(fault)),
            Aim::Needs(_) => Err(Stop::Fault(EvalFault::WrongKind)),
        }
    }

    // The place on which a slot is set.
    fn set_place(&self, place: Place) -> Place
        ensures { result ≡ set_place place self.now.objects }
    {
        let set = Place {
            side: Side::Set,
            ..place
        };
        if self.objects.held(set).is_some() {
            set
        } else {
            place
        }
    }

    // The value as a slot takes it that a document writes.
    fn writable(&self, alloc: Global, place: Place, value: Value) -> Result<Value, Stop>
        ensures { Gives (writable place self.now.objects value) result }
    {
        let Some(info) = self.objects.slot(place) else {
            return Err(Stop::Fault(EvalFault::WrongKind));
        };
        if info.read_only {
            return Err(Stop::Fault(EvalFault::ReadOnly));
        }
        Ok(self.objects.take(alloc, info.kind, value)?)
    }

    // Where a slot is set, with the value as it takes it.
    #[tactic(auto, using(crate::proofs::Following::stops_then))]
    fn placed(&self, alloc: Global, place: Place, value: Value) -> Result<(Place, Value), Stop>
        ensures { Gives (placed place self.now.objects value) result }
    {
        let value = self.writable(alloc, place, value)?;
        Ok((place, value))
    }

    /// What an assignment writes to a place, and where.
    #[tactic(auto, using(crate::proofs::Following::stops_then), unfolding(crate::specs::Assigning::assignment))]
    pub(crate) fn assignment(
        &self,
        target: &Expr,
        op: AssignOp,
        right: Right<'_>,
        at: &Setting<'_>,
        locals: &Locals,
    ) -> Result<(Place, Value), Stop>
        ensures { Gives (assignment (aimed every (meanings self.now.objects) target.now at.now.site.now.frame locals.now []).0 op (right_in at.now.site.now.frame self.now.objects locals.now right.entry) self.now.objects) result }
    {
        let place = self.aimed(target, at, locals)?;
        let old = self.objects.value_or_null(place);
        let value = self.combined(op, old, right, at, locals)?;
        self.placed(at.alloc, self.set_place(place), value)
    }
}
