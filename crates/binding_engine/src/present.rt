ghost use Rattle.std.specs.Prelude.{◌≡◌, ◌<◌, ℕ, List, [], length, filter, slice_get, IfOk, OnOk, is_some};
ghost use Rattle.settling.specs.Cells.{clean, value_of};
ghost use Rattle.settling.specs.Evaluations.{walk};
ghost use Rattle.expr_eval.specs.Shapes.{meanings};
ghost use Rattle.object_tree.specs.Order.{AreRising};
ghost use Rattle.object_tree.specs.Places.{places_of};
ghost use Rattle.binding_engine.specs.Equations.{shape_of, family_of, bound_tree, native_tree, taken_in, tree_at, equated, has_equation};
ghost use Rattle.object_tree.specs.Reading.{info_at};
ghost use Rattle.binding_engine.specs.Progress.{IsMetAt, AreMet, AreMet-prop, seeing};
ghost use Rattle.item_equations.specs.Progress.{IsMet};
ghost use Rattle.binding_engine.specs.Entries.{State, at, space, outcome_of, told, with_first, first_entries};

use crate::cells::{Cells, Entry, Stage};
use crate::equations::{first_entry, has_equation, has_owner, native_at};
use crate::waiting::Waiting;
use expr_eval::{Eval, Found, Frame, GroupName, Locals, Method, Reader, Trace, eval};
use item_equations::{ItemReader, Native, Progress, Stop, evaluate};
use object_tree::{Binding, Objects};
use qml_ast::{EvalFault, Name, Place, Value};
use settling::{Field, Phase};
use std::alloc::{AllocError, Global};

/// The objects within a settle, with what their places have.
#[derive(Drop)]
pub(crate) struct Present<'a> {
    pub(crate) alloc: Global,
    pub(crate) objects: &'a Objects,
    /// The places that have an expression, in order.
    pub(crate) places: Vec<Place>,
    pub(crate) cells: Cells,
    /// The evaluations that stopped after they had met something, the one to go on first at the end.
    pub(crate) waiting: Vec<Waiting>,
    pub(crate) evaluations: u64,
    ghost met: { AreMet (objects.now, cells) waiting.items } by { AreMet-prop (objects.now, cells) waiting.items },
}

/// Adds what a place has as a settle begins, where it has an expression.
fn add_first(
    alloc: Global,
    objects: &Objects,
    place: Place,
    cells: &mut Cells,
) -> Result<(), AllocError>
    ensures { OnOk result (cells.new ≡ with_first objects.now cells.old place) }
{
    match first_entry(alloc, objects, place)? {
        Some(entry) => cells.insert(place, entry),
        None => Ok(()),
    }
}

/// The entries of these places as a settle begins.
fn first_cells(alloc: Global, objects: &Objects, places: &[Place]) -> Result<Cells, AllocError>
    ensures { IfOk result (λ cells. cells ≡ first_entries objects.now places.now) }
{
    let mut cells = Cells::new(alloc);
    for place in places {
        add_first(alloc, objects, *place, &mut cells)?;
    }
    Ok(cells)
}

/// Those of the places that have an expression.
fn equated(alloc: Global, objects: &Objects, places: &[Place]) -> Result<Vec<Place>, AllocError>
    ensures { IfOk result (λ found. found.items ≡ filter (has_equation objects.now) places.now) }
{
    let mut found = Vec::new(alloc);
    for place in places {
        if has_equation(objects, *place) {
            found.push(*place)?;
        }
    }
    Ok(found)
}

impl<'a> Present<'a> {
    /// The objects as a settle begins.
    pub(crate) fn new(alloc: Global, objects: &'a Objects) -> Result<Present<'a>, AllocError>
        ensures objects { IfOk result (λ present. present.objects.now ≡ objects.now) }
        ensures places { IfOk result (λ present. present.places.items ≡ equated objects.now) }
        ensures cells { IfOk result (λ present. present.cells ≡ first_entries objects.now (places_of objects.now)) }
        ensures rising { OnOk result (AreRising (places_of objects.now)) }
    {
        let all = objects.places(alloc)?;
        let cells = first_cells(alloc, objects, all.as_slice())?;
        let places = equated(alloc, objects, all.as_slice())?;
        Ok(Present {
            alloc,
            objects,
            places,
            cells,
            waiting: Vec::new(alloc),
            evaluations: 0,
        })
    }
}

impl<'a> Present<'a> {
    /// The objects while nobody settles them: each place has its value.
    pub(crate) fn at_rest(alloc: Global, objects: &'a Objects) -> Present<'a>
        ensures objects { result.objects.now ≡ objects.now }
        ensures cells { result.cells ≡ [] }
    {
        Present {
            alloc,
            objects,
            places: Vec::new(alloc),
            cells: Cells::new(alloc),
            waiting: Vec::new(alloc),
            evaluations: 0,
        }
    }
}

impl Reader for Present<'_> {
    ghost means = { λ present. meanings (shape_of present.objects.now) (λ p. value_of (at (present.objects.now, present.cells) p)) };

    ghost clean = { λ present p. is_some (clean (at (present.objects.now, present.cells) p)) };

    fn look(&self, frame: Frame, name: &Name) -> Found {
        self.objects.look(frame, name)
    }

    fn member(&self, of: u64, group: Option<GroupName>, name: &Name) -> Found {
        self.objects.member(of, group, name)
    }

    #[tactic(auto, using(crate::proofs::Moves::null_read))]
    fn read(&self, place: Place) -> Option<&Value> {
        match self.cells.get(place) {
            Some(entry) => match entry.phase() {
                Phase::Fresh | Phase::UnderWay => None,
                Phase::Stopped | Phase::Done => Some(self.objects.as_read(&entry.value)),
            },
            None => Some(self.objects.value_or_null(place)),
        }
    }

    fn method(&self, of: u64, method: u32) -> Option<Method<'_>> {
        self.objects.callable(of, method)
    }
}

impl ItemReader for Present<'_> {
    ghost family = { λ present. family_of present.objects.now };

    fn parent(&self, item: u64) -> Option<u64> {
        self.objects.item_parent(item)
    }

    fn owned(&self, item: u64) -> &[u64] {
        self.objects.owned(item)
    }

    fn is_set(&self, place: Place) -> bool {
        self.objects.is_set(place)
    }
}

impl Present<'_> {
    /// The value as the slot of a place takes it, or the fault that it does not.
    fn taken(&self, place: Place, value: Value) -> Result<Eval, AllocError>
        ensures { IfOk result (λ e. outcome_of e ≡ told (taken_in (info_at place self.now.objects.now) self.now.objects.now value)) }
    {
        let Some(info) = self.objects.slot(place) else {
            return Ok(Eval::Faulted(EvalFault::WrongKind));
        };
        match self.objects.take(self.alloc, info.kind, value) {
            Ok(taken) => Ok(Eval::Is(taken)),
            Err(EvalFault::NoMemory) => Err(AllocError),
            Err(fault) => Ok(Eval::Faulted(fault)),
        }
    }

    /// What comes of the expression that a place is bound to.
    fn bound(&self, place: Place, binding: &Binding) -> Result<Eval, AllocError>
        ensures { IfOk result (λ e. outcome_of e ≡ walk space (bound_tree self.now.objects.now place binding.now) (self.now.objects.now, self.now.cells)) }
    {
        let locals = Locals::new(self.alloc);
        let mut trace = Trace::new(self.alloc);
        let expr = binding.expr.get();
        match eval(self.alloc, expr, binding.frame, &locals, self, &mut trace)? {
            Eval::Is(value) => self.taken(place, value),
            Eval::Faulted(fault) => Ok(Eval::Faulted(fault)),
            Eval::Needs(needed) => Ok(Eval::Needs(needed)),
        }
    }

    /// What comes of an equation of an item, which goes on from how far it had come.
    fn native(&self, native: Native, item: u64, progress: &mut Progress) -> Eval
        requires { IsMet (seeing (self.now.objects.now, self.now.cells)) (family_of self.now.objects.now) native item progress.old }
        ensures outcome { outcome_of result ≡ walk space (native_tree self.now.objects.now native item) (self.now.objects.now, self.now.cells) }
        ensures met { IsMet (seeing (self.now.objects.now, self.now.cells)) (family_of self.now.objects.now) native item progress.new }
    {
        match evaluate(self, native, item, progress) {
            Ok(value) => Eval::Is(value),
            Err(Stop::Overflow) => Eval::Faulted(EvalFault::Overflow),
            Err(Stop::Needs(needed)) => Eval::Needs(needed),
        }
    }

    /// What comes of the expression of a place, which goes on from how far it had come.
    #[tactic(auto, unfolding(settling::specs::Evaluations::walk, crate::specs::Equations::equation))]
    fn outcome(&self, place: Place, progress: &mut Progress) -> Result<Eval, AllocError>
        requires { IsMetAt (self.now.objects.now, self.now.cells) place progress.old }
        ensures outcome { IfOk result (λ e. outcome_of e ≡ walk space (tree_at self.now.objects.now place) (self.now.objects.now, self.now.cells)) }
        ensures met { IsMetAt (self.now.objects.now, self.now.cells) place progress.new }
    {
        if !has_owner(self.objects, place.serial) {
            return Ok(Eval::Faulted(EvalFault::WrongKind));
        }
        if let Some(binding) = self.objects.binding(place) {
            return self.bound(place, binding);
        }
        match native_at(self.objects, place) {
            Some(native) => Ok(self.native(native, place.serial, progress)),
            None => Ok(Eval::Faulted(EvalFault::WrongKind)),
        }
    }

    /// How far the evaluation of a place had come. It waits no longer.
    fn take_progress(&mut self, place: Place) -> Progress
        ensures met { IsMetAt (self.new.objects.now, self.new.cells) place result }
        ensures objects { self.new.objects.now ≡ self.old.objects.now }
        ensures cells { self.new.cells ≡ self.old.cells }
        ensures places { self.new.places.items ≡ self.old.places.items }
        ensures evaluations { self.new.evaluations ≡ self.old.evaluations }
    {
        match self.waiting.as_slice().last() {
            Some(last) if last.place == place => {
                let progress = last.progress;
                self.waiting.pop();
                progress
            }
            _ => Progress::none(),
        }
    }

    /// The evaluation of a place waits, if it met something.
    fn keep_progress(&mut self, place: Place, progress: Progress) -> Result<(), AllocError>
        requires { IsMetAt (self.old.objects.now, self.old.cells) place progress }
        ensures objects { self.new.objects.now ≡ self.old.objects.now }
        ensures cells { self.new.cells ≡ self.old.cells }
        ensures places { self.new.places.items ≡ self.old.places.items }
        ensures evaluations { self.new.evaluations ≡ self.old.evaluations }
    {
        if progress.has_begun() {
            self.waiting.push(Waiting { place, progress })?;
        }
        Ok(())
    }
}

impl Field for Present<'_> {
    type Place = Place;

    type Value = Value;

    type Fault = EvalFault;

    type State = (Objects, Cells);

    ghost space = { space };

    ghost state = { λ present. (present.objects.now, present.cells) };

    ghost tree = { λ present p. tree_at present.objects.now p };

    ghost places = { λ present. present.places.items };

    ghost evaluations = { λ present. present.evaluations };

    fn are_same(&self, p: Place, q: Place) -> bool {
        p == q
    }

    fn count(&self) -> usize {
        self.places.len()
    }

    fn place(&self, index: usize) -> Place {
        self.places[index]
    }

    fn phase(&self, place: Place) -> Phase {
        match self.cells.get(place) {
            Some(entry) => entry.phase(),
            None => Phase::Done,
        }
    }

    fn begin(&mut self, place: Place) {
        self.cells.begin(place);
    }

    fn stop(&mut self, place: Place) {
        self.cells.stop(place);
    }

    fn suspend(&mut self, place: Place) {
        self.take_progress(place);
        self.cells.suspend(place);
    }

    #[tactic(auto, using(crate::proofs::Moves::comes_to_value, crate::proofs::Moves::comes_to_fault, crate::proofs::Moves::comes_to_need))]
    fn evaluate(&mut self, place: Place) -> Result<Option<Place>, AllocError> {
        self.evaluations = self.evaluations.saturating_add(1);
        let mut progress = self.take_progress(place);
        match self.outcome(place, &mut progress)? {
            Eval::Is(value) => {
                let entry = Entry {
                    stage: Stage::Active,
                    value,
                    mark: None,
                };
                self.cells.put(place, entry);
                Ok(None)
            }
            Eval::Faulted(fault) => {
                self.cells.fail(place, fault);
                Ok(None)
            }
            Eval::Needs(needed) => {
                self.keep_progress(place, progress)?;
                Ok(Some(needed))
            }
        }
    }
}
