ghost use Rattle.std.specs.Prelude.{◌≡◌, option_copied};
ghost use Rattle.signals.specs.Endings.{Gives};
ghost use Rattle.signals.specs.Values.{value_in, value_or_undefined, holds_in, condition_in};

use crate::ending::Stop;
use crate::job::Site;
use crate::world::World;
use expr_eval::{Eval, Locals, Trace, eval};
use object_tree::Settled;
use qml_ast::{EvalFault, Expr, Value, truth};
use std::alloc::Global;

/// Where a statement stands.
#[derive(Clone, Copy)]
pub(crate) struct Setting<'a> {
    pub(crate) alloc: Global,
    pub(crate) site: &'a Site,
    /// How many more handlers may nest in the one that runs.
    pub(crate) room: u32,
}

impl World {
    /// The value of an expression.
    pub(crate) fn value(&self, e: &Expr, at: &Setting<'_>, locals: &Locals) -> Result<Value, Stop>
        ensures { Gives (value_in at.now.site.now.frame self.now.objects locals.now e.now) result }
    {
        let reader = Settled {
            objects: &self.objects,
        };
        let mut trace = Trace::new(at.alloc);
        match eval(at.alloc, e, at.site.frame, locals, &reader, &mut trace)? {
            Eval::Is(value) => Ok(value),
            Eval::Faulted(fault) => Err(Stop::Fault(fault)),
            Eval::Needs(_) => Err(Stop::Fault(EvalFault::WrongKind)),
        }
    }

    /// The value of an expression that may be left out, and is `undefined` then.
    pub(crate) fn value_or_undefined(
        &self,
        e: Option<&Expr>,
        at: &Setting<'_>,
        locals: &Locals,
    ) -> Result<Value, Stop>
        ensures { Gives (value_or_undefined at.now.site.now.frame self.now.objects locals.now (option_copied e.entry)) result }
    {
        match e {
            Some(e) => self.value(e, at, locals),
            None => Ok(Value::Line(None)),
        }
    }

    /// Whether an expression's value is true.
    pub(crate) fn holds(&self, e: &Expr, at: &Setting<'_>, locals: &Locals) -> Result<bool, Stop>
        ensures { Gives (holds_in at.now.site.now.frame self.now.objects locals.now e.now) result }
    {
        match self.value(e, at, locals) {
            Ok(value) => Ok(truth(&value)),
            Err(stop) => Err(stop),
        }
    }

    /// Whether a condition holds. One that is left out does.
    pub(crate) fn condition(
        &self,
        e: Option<&Expr>,
        at: &Setting<'_>,
        locals: &Locals,
    ) -> Result<bool, Stop>
        ensures { Gives (condition_in at.now.site.now.frame self.now.objects locals.now (option_copied e.entry)) result }
    {
        match e {
            Some(e) => self.holds(e, at, locals),
            None => Ok(true),
        }
    }
}
