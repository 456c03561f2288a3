ghost use Rattle.std.specs.Prelude.{◌≡◌, ◌≤◌, ◌<◌, if◌then◌else◌, pos, List, [], map, option_copied, option_map, Ok, OnOk};
ghost use Rattle.qml_ast.specs.declared.expr.Expr.{out-Expr};
ghost use Rattle.qml_ast.specs.declared.stmt.AssignOp.TheVariants.{Add, Sub};
ghost use Rattle.qml_ast.specs.declared.value.Value.TheVariants.{Int};
ghost use Rattle.expr_eval.specs.Names.{declared};
ghost use Rattle.expr_eval.specs.Needs.{every};
ghost use Rattle.expr_eval.specs.Statements.{called};
ghost use Rattle.expr_eval.specs.declared.locals.Local.TheVariants.{Plain};
ghost use Rattle.expr_eval.specs.declared.locals.NamedLocal.{NamedLocal};
ghost use Rattle.object_tree.specs.Handlers.{signal_params_at, method_at};
ghost use Rattle.object_tree.specs.Settled.{meanings, arities};
ghost use Rattle.signals.specs.Assigning.{right_in};
ghost use Rattle.signals.specs.Endings.{Ends, Leaves, each, on, followed, going, with_value};
ghost use Rattle.signals.specs.Jobs.{handles, taken_arguments};
ghost use Rattle.signals.specs.Running.{handle, exec, begun, in_order, part, chosen, looped, turn_of, is_fixed_word, assigned_to, done_step, call_done, method_called, timer_called, restarted, written_to, body_done, handled, emitted, change_told, write};
ghost use Rattle.signals.specs.Values.{holds_in, value_or_undefined};

use crate::assigning::{Right, local_target};
use crate::calling::running_place;
use crate::ending::{Flow, Halt, Stop};
use crate::job::{Body, Job, Site};
use crate::jobs::{
    Occasion, change_name, jobs, method_job, signal_locals, signal_name, taken_arguments,
};
use crate::valuing::Setting;
use crate::world::World;
use binding_engine::Writes;
use expr_eval::{Called, Local, Locals};
use qml_ast::{AssignOp, EvalFault, Expr, LocalWord, Name, Place, Stmt, Value};
use script_text::LimitKind;
use sqlite_items::Boxed;
use std::alloc::Global;

// Whether nothing can be assigned to what the word declares.
fn is_fixed_word(word: LocalWord) -> bool
    ensures { result ≡ is_fixed_word word }
{
    match word {
        LocalWord::Var | LocalWord::Let => false,
        LocalWord::Const => true,
    }
}

impl World {
    // Counts a statement that begins. Where no more may begin, that is noted.
    fn begin_statement(&mut self, at: &Setting<'_>) -> Result<(), Halt>
        ensures begins { Ends (begun at.now.site.now self.old) result self.new }
        ensures left { self.new.left ≤ self.old.left }
        ensures spends { OnOk result (self.new.left < self.old.left) }
    {
        if self.left == 0 {
            self.note_limit(at.site, LimitKind::Statements)?;
            return Err(Halt::Budget);
        }
        self.left -= 1;
        Ok(())
    }

    // Declares a local.
    #[tactic(auto, using(crate::proofs::Following::stops_value))]
    fn declare(
        &self,
        word: LocalWord,
        name: &Name,
        value: Option<&Expr>,
        at: &Setting<'_>,
        locals: &mut Locals,
    ) -> Result<Flow, Stop>
        ensures { Leaves (with_value (value_or_undefined at.now.site.now.frame self.now.objects locals.old (option_copied value.entry)) self.now locals.old
            (λ v. on self.now (declared name.now (Plain v) (is_fixed_word word) locals.old))) result self.now locals.new }
    {
        let value = self.value_or_undefined(value, at, locals)?;
        locals.declare(at.alloc, name, Local::Plain(value), is_fixed_word(word))?;
        Ok(Flow::Going)
    }

    // Runs a statement.
    #[cycle(running)]
    #[tactic(auto, using(crate::proofs::Following::stops_followed, crate::proofs::Following::stops_going, crate::proofs::Following::stops_value), unfolding(crate::specs::Running::exec))]
    fn statement(
        &mut self,
        stmt: &Stmt,
        at: &Setting<'_>,
        locals: &mut Locals,
    ) -> Result<Flow, Stop>
        ensures runs { Leaves (exec (handle at.now.room) at.now.site.now stmt.now self.old locals.old) result self.new locals.new }
        ensures left { self.new.left ≤ self.old.left }
        ensures spends { OnOk result (self.new.left < self.old.left) }
    {
        self.begin_statement(at)?;
        match stmt {
            Stmt::Local(word, name, value) => {
                self.declare(*word, name, value.as_ref(), at, locals)
            }
            Stmt::Assign(target, op, right) => {
                self.assign(target, *op, Right::Of(right), at, locals)
            }
            Stmt::Step(target, up) => self.step(target, *up, at, locals),
            Stmt::Do(e) => self.perform(e, at, locals),
            Stmt::Block(stmts) => self.in_order(stmts.as_slice(), at, locals),
            Stmt::Empty => Ok(Flow::Going),
            Stmt::If(condition, first, otherwise) => {
                self.choose(condition, first, otherwise.as_ref(), at, locals)
            }
            Stmt::While(condition, body) => { self.turns(Some(condition), body, None, at, locals) }
            Stmt::For(first, condition, step, body) => self.count_through(
                first.as_ref(),
                condition.as_ref(),
                step.as_ref(),
                body,
                at,
                locals,
            ),
            Stmt::Return(value) => {
                self.value_or_undefined(value.as_ref(), at, locals)?;
                Ok(Flow::Returned)
            }
        }
    }

    // Runs statements, one after another.
    #[cycle(running)]
    #[tactic(auto, using(crate::proofs::Following::stops_followed))]
    fn in_order(
        &mut self,
        stmts: &[Stmt],
        at: &Setting<'_>,
        locals: &mut Locals,
    ) -> Result<Flow, Stop>
        ensures runs { Leaves (in_order (map (exec (handle at.now.room) at.now.site.now) stmts.now) self.old locals.old) result self.new locals.new }
        ensures left { self.new.left ≤ self.old.left }
    {
        for stmt in stmts {
            match self.statement(stmt, at, locals)? {
                Flow::Going => {}
                Flow::Returned => return Ok(Flow::Returned),
            }
        }
        Ok(Flow::Going)
    }

    // Runs a part that may be left out.
    #[cycle(running)]
    fn part(
        &mut self,
        stmt: Option<&Boxed<Stmt>>,
        at: &Setting<'_>,
        locals: &mut Locals,
    ) -> Result<Flow, Stop>
        ensures runs { Leaves (part (option_map (exec (handle at.now.room) at.now.site.now) (option_copied stmt.entry)) self.old locals.old) result self.new locals.new }
        ensures left { self.new.left ≤ self.old.left }
    {
        match stmt {
            Some(stmt) => self.statement(stmt.get(), at, locals),
            None => Ok(Flow::Going),
        }
    }

    #[cycle(running)]
    #[tactic(auto, using(crate::proofs::Following::stops_value))]
    fn choose(
        &mut self,
        condition: &Expr,
        first: &Boxed<Stmt>,
        otherwise: Option<&Boxed<Stmt>>,
        at: &Setting<'_>,
        locals: &mut Locals,
    ) -> Result<Flow, Stop>
        ensures runs { Leaves (with_value (holds_in at.now.site.now.frame self.old.objects locals.old condition.now) self.old locals.old
            (λ holds. chosen holds (exec (handle at.now.room) at.now.site.now first.now) (option_map (exec (handle at.now.room) at.now.site.now) (option_copied otherwise.entry)) self.old locals.old)) result self.new locals.new }
        ensures left { self.new.left ≤ self.old.left }
    {
        if self.holds(condition, at, locals)? {
            self.statement(first.get(), at, locals)
        } else {
            self.part(otherwise, at, locals)
        }
    }

    // Runs a `for`.
    #[cycle(running)]
    #[tactic(auto, using(crate::proofs::Following::stops_followed))]
    fn count_through(
        &mut self,
        first: Option<&Boxed<Stmt>>,
        condition: Option<&Expr>,
        step: Option<&Boxed<Stmt>>,
        body: &Boxed<Stmt>,
        at: &Setting<'_>,
        locals: &mut Locals,
    ) -> Result<Flow, Stop>
        ensures runs { Leaves (followed (part (option_map (exec (handle at.now.room) at.now.site.now) (option_copied first.entry)) self.old locals.old)
            (looped at.now.site.now.frame (option_copied condition.entry) (turn_of (exec (handle at.now.room) at.now.site.now body.now) (option_map (exec (handle at.now.room) at.now.site.now) (option_copied step.entry))))) result self.new locals.new }
        ensures left { self.new.left ≤ self.old.left }
    {
        match self.part(first, at, locals)? {
            Flow::Going => self.turns(condition, body, step, at, locals),
            Flow::Returned => Ok(Flow::Returned),
        }
    }

    // Runs the turns of a loop.
    #[cycle(running)]
    fn turns(
        &mut self,
        condition: Option<&Expr>,
        body: &Boxed<Stmt>,
        step: Option<&Boxed<Stmt>>,
        at: &Setting<'_>,
        locals: &mut Locals,
    ) -> Result<Flow, Stop>
        ensures runs { Leaves (looped at.now.site.now.frame (option_copied condition.entry) (turn_of (exec (handle at.now.room) at.now.site.now body.now) (option_map (exec (handle at.now.room) at.now.site.now) (option_copied step.entry))) self.old locals.old) result self.new locals.new }
        ensures left { self.new.left ≤ self.old.left }
    {
        while self.condition(condition, at, locals)? {
            match self.turn(body, step, at, locals)? {
                Flow::Going => {}
                Flow::Returned => return Ok(Flow::Returned),
            }
        }
        Ok(Flow::Going)
    }

    // Runs one turn of a loop.
    #[cycle(running)]
    #[tactic(auto, using(crate::proofs::Following::stops_followed))]
    fn turn(
        &mut self,
        body: &Boxed<Stmt>,
        step: Option<&Boxed<Stmt>>,
        at: &Setting<'_>,
        locals: &mut Locals,
    ) -> Result<Flow, Stop>
        ensures runs { Leaves (turn_of (exec (handle at.now.room) at.now.site.now body.now) (option_map (exec (handle at.now.room) at.now.site.now) (option_copied step.entry)) self.old locals.old) result self.new locals.new }
        ensures left { self.new.left ≤ self.old.left }
        ensures spends { OnOk result (self.new.left < self.old.left) }
    {
        match self.statement(body.get(), at, locals)? {
            Flow::Going => self.part(step, at, locals),
            Flow::Returned => Ok(Flow::Returned),
        }
    }

    // Runs `++` or `--`.
    #[cycle(running)]
    fn step(
        &mut self,
        target: &Expr,
        up: bool,
        at: &Setting<'_>,
        locals: &mut Locals,
    ) -> Result<Flow, Stop>
        ensures runs { Leaves (assigned_to (handle at.now.room) at.now.site.now target.now (if up then Add else Sub) (Ok (Int (pos 1))) self.old locals.old) result self.new locals.new }
        ensures left { self.new.left ≤ self.old.left }
    {
        let op = if up { AssignOp::Add } else { AssignOp::Sub };
        self.assign(target, op, Right::One, at, locals)
    }

    // Runs an assignment.
    #[cycle(running)]
    #[tactic(auto, using(crate::proofs::Following::stops_value, crate::proofs::Following::stops_going), unfolding(crate::specs::Running::assigned_to))]
    fn assign(
        &mut self,
        target: &Expr,
        op: AssignOp,
        right: Right<'_>,
        at: &Setting<'_>,
        locals: &mut Locals,
    ) -> Result<Flow, Stop>
        ensures runs { Leaves (assigned_to (handle at.now.room) at.now.site.now target.now op (right_in at.now.site.now.frame self.old.objects locals.old right.entry) self.old locals.old) result self.new locals.new }
        ensures left { self.new.left ≤ self.old.left }
    {
        if let Some(name) = local_target(target, locals) {
            return self.assign_local(name, op, right, at, locals);
        }
        let (place, value) = self.assignment(target, op, right, at, locals)?;
        self.write_at(at.alloc, place, value, at.room)?;
        Ok(Flow::Going)
    }

    // Runs an expression that stands as a statement.
    #[cycle(running)]
    #[tactic(auto, using(crate::proofs::Following::stops_value))]
    fn perform(&mut self, e: &Expr, at: &Setting<'_>, locals: &mut Locals) -> Result<Flow, Stop>
        ensures runs { Leaves (done_step (handle at.now.room) at.now.site.now e.now (out-Expr e.now) self.old locals.old) result self.new locals.new }
        ensures left { self.new.left ≤ self.old.left }
    {
        match e {
            Expr::Call(callee, arguments) => {
                self.call(callee.get(), arguments.as_slice(), at, locals)
            }
            _ => {
                self.value(e, at, locals)?;
                Ok(Flow::Going)
            }
        }
    }

    // Runs a call that stands as a statement.
    #[cycle(running)]
    fn call(
        &mut self,
        callee: &Expr,
        arguments: &[Expr],
        at: &Setting<'_>,
        locals: &mut Locals,
    ) -> Result<Flow, Stop>
        ensures runs { Leaves (call_done (handle at.now.room) at.now.site.now (called every (meanings self.old.objects) (arities self.old.objects) callee.now arguments.now at.now.site.now.frame locals.old []).0 self.old locals.old) result self.new locals.new }
        ensures left { self.new.left ≤ self.old.left }
    {
        match self.called(callee, arguments, at, locals)? {
            Called::Done => Ok(Flow::Going),
            Called::Log(values) => self.log(at.alloc, values.as_slice()),
            Called::Signal {
                of,
                signal,
                arguments,
            } => self.call_signal(of, signal, arguments.as_slice(), at),
            Called::Method {
                of,
                method,
                arguments,
            } => self.call_method(of, method, arguments.as_slice(), at),
            Called::Needs(_) => Err(Stop::Fault(EvalFault::WrongKind)),
            Called::Faulted(fault) => Err(Stop::Fault(fault)),
        }
    }

    // Emits a signal that is called.
    #[cycle(running)]
    #[tactic(auto, using(crate::proofs::Following::stops_value, crate::proofs::Following::stops_going))]
    fn call_signal(
        &mut self,
        of: u64,
        signal: u32,
        arguments: &[Value],
        at: &Setting<'_>,
    ) -> Result<Flow, Stop>
        ensures runs { (locals : List NamedLocal) → Leaves (with_value (taken_arguments self.old.objects (signal_params_at of signal self.old.objects) arguments.now) self.old locals
            (λ args. going (emitted (handle at.now.room) of signal args self.old) locals)) result self.new locals }
        ensures left { self.new.left ≤ self.old.left }
    {
        let taken = taken_arguments(at.alloc, &self.objects, of, signal, arguments)?;
        self.emit_in(at.alloc, of, signal, taken.as_slice(), at.room)?;
        Ok(Flow::Going)
    }

    // Runs a method that is called: one that a document declares, or a timer's.
    #[cycle(running)]
    #[tactic(auto, using(crate::proofs::Following::stops_going))]
    fn call_method(
        &mut self,
        of: u64,
        method: u32,
        arguments: &[Value],
        at: &Setting<'_>,
    ) -> Result<Flow, Stop>
        ensures runs { (locals : List NamedLocal) → Leaves (going (method_called (handle at.now.room) at.now.site.now of method (method_at of method self.old.objects) arguments.now self.old) locals) result self.new locals }
        ensures left { self.new.left ≤ self.old.left }
    {
        match method_job(at.alloc, &self.objects, of, method, arguments, at.site)? {
            Some(job) => self.run(at.alloc, &job, at.room)?,
            None => self.call_timer(at.alloc, of, method, at.room)?,
        }
        Ok(Flow::Going)
    }

    // Runs a timer's method.
    #[cycle(running)]
    #[tactic(auto, unfolding(crate::specs::Running::timer_called))]
    fn call_timer(&mut self, alloc: Global, of: u64, method: u32, room: u32) -> Result<(), Halt>
        ensures runs { Ends (timer_called (handle room) of method self.old) result self.new }
        ensures left { self.new.left ≤ self.old.left }
    {
        match method {
            0 => self.write_any(alloc, running_place(of), Value::Bool(true), room),
            1 => self.write_any(alloc, running_place(of), Value::Bool(false), room),
            2 => self.restart(alloc, of, room),
            _ => Ok(()),
        }
    }

    // Begins a timer anew that runs, and starts another one.
    #[cycle(running)]
    fn restart(&mut self, alloc: Global, of: u64, room: u32) -> Result<(), Halt>
        ensures runs { Ends (restarted (handle room) of self.old) result self.new }
        ensures left { self.new.left ≤ self.old.left }
    {
        if self.is_shown_true(running_place(of)) {
            self.note_restart(of)?;
            return Ok(());
        }
        self.write_any(alloc, running_place(of), Value::Bool(true), room)
    }

    #[cycle(running)]
    fn write_any(
        &mut self,
        alloc: Global,
        place: Option<Place>,
        value: Value,
        room: u32,
    ) -> Result<(), Halt>
        ensures runs { Ends (written_to (handle room) place value self.old) result self.new }
        ensures left { self.new.left ≤ self.old.left }
    {
        match place {
            Some(place) => self.write_at(alloc, place, value, room),
            None => Ok(()),
        }
    }

    /// Runs a handler or a method. A fault ends it alone.
    #[cycle(running)]
    #[tactic(auto, unfolding(crate::specs::Running::handle))]
    pub(crate) fn run(&mut self, alloc: Global, job: &Job, room: u32) -> Result<(), Halt>
        ensures runs { Ends (handle room job.now self.old) result self.new }
        ensures left { self.new.left ≤ self.old.left }
    {
        if room == 0 {
            self.note_limit(&job.site, LimitKind::Handlers)?;
            return Err(Halt::TooDeep);
        }
        let at = Setting {
            alloc,
            site: &job.site,
            room: room - 1,
        };
        let mut locals = job.locals.copy(alloc)?;
        match self.run_body(&job.body, &at, &mut locals) {
            Ok(_) => Ok(()),
            Err(Stop::Fault(fault)) => Ok(self.note_end(&job.site, fault)?),
            Err(Stop::Halted(halt)) => Err(halt),
        }
    }

    #[cycle(running)]
    fn run_body(&mut self, body: &Body, at: &Setting<'_>, locals: &mut Locals) -> Result<Flow, Stop>
        ensures runs { Leaves (body_done (handle at.now.room) at.now.site.now body.now self.old locals.old) result self.new locals.new }
        ensures left { self.new.left ≤ self.old.left }
    {
        match body {
            Body::Handler(stmt) => self.statement(stmt.get().get(), at, locals),
            Body::Method(stmts) => self.in_order(stmts.get().as_slice(), at, locals),
        }
    }

    /// Runs the handlers of an object that run at that occasion, with these locals.
    #[cycle(running)]
    #[tactic(auto, using(crate::proofs::Following::stops_after), unfolding(crate::specs::Running::handled))]
    pub(crate) fn handled(
        &mut self,
        alloc: Global,
        of: u64,
        occasion: &Occasion<'_>,
        locals: &Locals,
        room: u32,
    ) -> Result<(), Halt>
        ensures runs { Ends (handled (handle room) of (handles occasion.now) locals.now self.old) result self.new }
        ensures left { self.new.left ≤ self.old.left }
    {
        let jobs = jobs(alloc, &self.objects, of, occasion, locals)?;
        for job in jobs.as_slice() {
            self.run(alloc, job, room)?;
        }
        Ok(())
    }

    /// Runs the handlers of a signal.
    #[cycle(running)]
    #[tactic(auto, unfolding(crate::specs::Running::emitted))]
    pub(crate) fn emit_in(
        &mut self,
        alloc: Global,
        of: u64,
        signal: u32,
        arguments: &[Value],
        room: u32,
    ) -> Result<(), Halt>
        ensures runs { Ends (emitted (handle room) of signal arguments.now self.old) result self.new }
        ensures left { self.new.left ≤ self.old.left }
    {
        let locals = signal_locals(alloc, &self.objects, of, signal, arguments)?;
        match signal_name(alloc, &self.objects, of, signal)? {
            Some(name) => {
                self.handled(alloc, of, &Occasion::Signal(name.as_str()), &locals, room)
            }
            None => Ok(()),
        }
    }

    // Runs the handlers of a place's changes.
    #[cycle(running)]
    fn tell_change(&mut self, alloc: Global, place: &Place, room: u32) -> Result<(), Halt>
        ensures runs { Ends (change_told (handle room) place.now self.old) result self.new }
        ensures left { self.new.left ≤ self.old.left }
    {
        match change_name(alloc, &self.objects, *place)? {
            Some(name) => {
                let locals = Locals::new(alloc);
                let occasion = Occasion::Signal(name.as_str());
                self.handled(alloc, place.serial, &occasion, &locals, room)
            }
            None => Ok(()),
        }
    }

    /// Runs the handlers of these places' changes, one place after another.
    #[cycle(running)]
    #[tactic(auto, using(crate::proofs::Following::stops_after))]
    pub(crate) fn tell_changes(
        &mut self,
        alloc: Global,
        changed: &[Place],
        room: u32,
    ) -> Result<(), Halt>
        ensures runs { Ends (each (change_told (handle room)) changed.now self.old) result self.new }
        ensures left { self.new.left ≤ self.old.left }
    {
        for place in changed {
            self.tell_change(alloc, place, room)?;
        }
        Ok(())
    }

    // Writes a value, settles, and runs the handlers of what has changed.
    #[cycle(running)]
    #[tactic(auto, unfolding(crate::specs::Running::write, crate::specs::Running::reacted))]
    fn write_at(&mut self, alloc: Global, place: Place, value: Value, room: u32) -> Result<(), Halt>
        ensures runs { Ends (write (handle room) place value self.old) result self.new }
        ensures left { self.new.left ≤ self.old.left }
    {
        let changed = self.settle_write(alloc, place, value)?;
        self.tell_changes(alloc, changed.as_slice(), room)
    }
}
