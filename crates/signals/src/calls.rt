ghost use Rattle.std.specs.Prelude.{◌≡◌, IfOk};
ghost use Rattle.signals.specs.Calls.{top, fresh_world, moved, ran_of, unless_dropped, react_ran, write_ran, emit_ran, complete_ran, run_job, exec_ran};
ghost use Rattle.signals.specs.Jobs.{handler_job};
ghost use Rattle.object_tree.specs.Handlers.{handler_at};
ghost use Rattle.signals.specs.Endings.{Ending, Ends, each};
ghost use Rattle.signals.specs.Running.{change_told};

use crate::ending::{Halt, Ran};
use crate::jobs::{Occasion, handler_job};
use crate::world::{HandlerRef, World};
use binding_engine::{Engine, Writes};
use expr_eval::Locals;
use object_tree::Objects;
use qml_ast::{Place, Value};
use script_text::Notes;
use sqlite_items::Items;
use std::alloc::{AllocError, Global};

/// How many statements may run in one move.
pub const MOST_STATEMENTS: u32 = 100_000;

/// How many handlers may nest in each other.
pub const MOST_HANDLERS: u32 = 64;

impl World {
    /// These objects, with nothing noted and no event, at the beginning of a move.
    pub fn new(alloc: Global, objects: Objects) -> World
        ensures { result ≡ fresh_world objects result.engine }
    {
        World {
            objects,
            engine: Engine::new(),
            notes: Notes::new(alloc),
            events: Items::new(alloc),
            left: MOST_STATEMENTS,
            dropped: false,
        }
    }

    /// Begins a move: as many statements may run as may in one, and handlers run again.
    pub fn begin_move(&mut self)
        ensures { self.new ≡ moved self.old }
    {
        self.left = MOST_STATEMENTS;
        self.dropped = false;
    }

    // How what ran has ended. After a limit that was met no handler runs.
    fn ran(&mut self, outcome: Result<(), Halt>) -> Result<Ran, AllocError>
        ensures { (expected : Ending) → Ends expected outcome self.old → IfOk result (λ ran. (ran, self.new) ≡ ran_of expected) }
    {
        let ran = match outcome {
            Ok(()) => return Ok(Ran::Ended),
            Err(Halt::NoMemory) => return Err(AllocError),
            Err(Halt::Budget) => Ran::Budget,
            Err(Halt::TooDeep) => Ran::TooDeep,
        };
        self.dropped = true;
        Ok(ran)
    }

    // Runs the handlers of these places' changes, unless a limit was met before.
    fn tell(&mut self, alloc: Global, changed: &[Place]) -> Result<Ran, AllocError>
        ensures { IfOk result (λ ran. (ran, self.new) ≡ unless_dropped (each (change_told top) changed.now) self.old) }
    {
        if self.dropped {
            return Ok(Ran::Ended);
        }
        let outcome = self.tell_changes(alloc, changed, MOST_HANDLERS);
        self.ran(outcome)
    }

    /// Settles the objects after the machine's own writes to these places, and after objects were made, with the
    /// notes and events of that, and runs the change handlers of the places that show another value than before, in
    /// their order. No handler runs where a limit was met before in this move.
    ///
    /// The only error is that memory ran out. Nothing is then said of the world.
    #[tactic(auto, unfolding(crate::specs::Calls::react_ran))]
    pub fn react(&mut self, alloc: Global, writes: &Writes) -> Result<Ran, AllocError>
        ensures { IfOk result (λ ran. (ran, self.new) ≡ react_ran writes.now self.old) }
    {
        let changed = self.settle(alloc, writes)?;
        self.tell(alloc, changed.as_slice())
    }

    /// Writes a value to a place, which its slot takes as it is: it takes the place of what the slot was bound to.
    /// The place is the one on which the slot is set, where what is set and what is shown are two. Then the objects
    /// are settled and change handlers run, as `react` has it.
    ///
    /// The only error is that memory ran out. Nothing is then said of the world.
    #[tactic(auto, unfolding(crate::specs::Calls::write_ran, crate::specs::Calls::react_ran))]
    pub fn write(&mut self, alloc: Global, place: Place, value: Value) -> Result<Ran, AllocError>
        ensures { IfOk result (λ ran. (ran, self.new) ≡ write_ran place value self.old) }
    {
        let changed = self.settle_write(alloc, place, value)?;
        self.tell(alloc, changed.as_slice())
    }

    /// Emits the signal of that number of an object, with these arguments: its handlers run, the innermost document's
    /// first (Qt 5 QML Reference, Signal and Handler Event System). No handler runs where a limit was met before in
    /// this move.
    ///
    /// The only error is that memory ran out. Nothing is then said of the world.
    #[tactic(auto, unfolding(crate::specs::Calls::emit_ran))]
    pub fn emit(
        &mut self,
        alloc: Global,
        of: u64,
        signal: u32,
        arguments: &[Value],
    ) -> Result<Ran, AllocError>
        ensures { IfOk result (λ ran. (ran, self.new) ≡ emit_ran of signal arguments.now self.old) }
    {
        if self.dropped {
            return Ok(Ran::Ended);
        }
        let outcome = self.emit_in(alloc, of, signal, arguments, MOST_HANDLERS);
        self.ran(outcome)
    }

    /// Runs the `Component.onCompleted` handlers of an object, the innermost document's first. No handler runs where
    /// a limit was met before in this move.
    ///
    /// The only error is that memory ran out. Nothing is then said of the world.
    #[tactic(auto, unfolding(crate::specs::Calls::complete_ran))]
    pub fn complete(&mut self, alloc: Global, of: u64) -> Result<Ran, AllocError>
        ensures { IfOk result (λ ran. (ran, self.new) ≡ complete_ran of self.old) }
    {
        if self.dropped {
            return Ok(Ran::Ended);
        }
        let locals = Locals::new(alloc);
        let outcome = self.handled(alloc, of, &Occasion::Completion, &locals, MOST_HANDLERS);
        self.ran(outcome)
    }

    // Runs one handler.
    fn exec_in(
        &mut self,
        alloc: Global,
        handler: HandlerRef,
        arguments: &[Value],
    ) -> Result<(), Halt>
        ensures { Ends (run_job (handler_job handler.serial arguments.now self.old.objects (handler_at handler.serial handler.index self.old.objects)) self.old) result self.new }
    {
        match handler_job(alloc, &self.objects, handler, arguments)? {
            Some(job) => self.run(alloc, &job, MOST_HANDLERS),
            None => Ok(()),
        }
    }

    /// Runs one handler of an object, with the arguments of the first signal of the object that it handles, if it
    /// handles one. Nothing runs where there is no such handler, and where a limit was met before in this move.
    ///
    /// The only error is that memory ran out. Nothing is then said of the world.
    #[tactic(auto, unfolding(crate::specs::Calls::exec_ran))]
    pub fn exec(
        &mut self,
        alloc: Global,
        handler: HandlerRef,
        arguments: &[Value],
    ) -> Result<Ran, AllocError>
        ensures { IfOk result (λ ran. (ran, self.new) ≡ exec_ran handler arguments.now self.old) }
    {
        if self.dropped {
            return Ok(Ran::Ended);
        }
        let outcome = self.exec_in(alloc, handler, arguments);
        self.ran(outcome)
    }
}
