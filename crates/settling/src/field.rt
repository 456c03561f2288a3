use std::alloc::AllocError;

/// How far a place has come within a settle.
#[derive(Clone, Copy, PartialEq, Eq)]
pub enum Phase {
    /// It wasn't visited so far.
    Fresh,
    /// Its evaluation is under way.
    UnderWay,
    /// It was read while its evaluation was under way.
    Stopped,
    /// It has a value: it has no expression, or stands suspended, or its evaluation has come to an end.
    Done,
}

/// Places whose expressions read each other, with their values.
///
/// Contracts see a `state`, in which each place has a cell, the `tree` of what each place's expression reads,
/// the `places` to visit, in order, and a count of `evaluations`, which each one raises by one at most. Where a
/// field holds references through which it writes, `loans` names them, so that who lent them learns what is
/// written.
pub trait Field {
    ghost use Rattle.std.specs.Prelude.{◌≡◌, ◌<◌, ◌≤◌, ℕ, suc, Some, List, [], length, slice_get, IfOk};
    ghost use Rattle.std.specs.Borrow.{GName};
    ghost use Rattle.settling.specs.Runs.{Run};
    ghost use Rattle.settling.specs.Spaces.{Space};
    ghost use Rattle.settling.specs.Evaluations.{evaluated};
    ghost use Rattle.settling.specs.Phases.{phase_of, Moves, begun, halted, left};

    /// Names a place.
    type Place: Copy + Ord;

    /// What contracts see of the value of a place.
    type Value;

    /// What contracts see of the fault of an expression.
    type Fault;

    /// What contracts see of all places.
    type State;

    ghost space: { Space Self.State Self.Place Self.Value Self.Fault };

    ghost state: { Self → Self.State };

    ghost tree: { Self → Self.Place → Run Self.Place Self.Value Self.Fault };

    ghost places: { Self → List Self.Place };

    ghost evaluations: { Self → ℕ };

    ghost loans: { Self → List GName } = { λ _. [] };

    /// Whether two names are of one place.
    fn are_same(&self, p: Self::Place, q: Self::Place) -> bool
        ensures { result ≡ space.are_same p q };

    /// How many places are to be visited.
    fn count(&self) -> usize
        ensures { result ≡ length (places self.now) };

    /// The place to be visited after so many others.
    fn place(&self, index: usize) -> Self::Place
        requires { index < length (places self.now) }
        ensures { slice_get (places self.now) index ≡ Some result };

    /// How far the place has come.
    fn phase(&self, place: Self::Place) -> Phase
        ensures { result ≡ phase_of (space.at (state self.now) place) };

    /// The evaluation of a place that wasn't visited so far is under way from now on.
    fn begin(&mut self, place: Self::Place)
        requires { phase_of (space.at (state self.old) place) ≡ Phase.Fresh }
        ensures state { Moves space begun (state self.old) place (state self.new) }
        ensures tree { tree self.new ≡ tree self.old }
        ensures places { places self.new ≡ places self.old }
        ensures evaluations { evaluations self.new ≡ evaluations self.old }
        ensures loans { loans self.new ≡ loans self.old };

    /// The place was read while its evaluation was under way.
    fn stop(&mut self, place: Self::Place)
        requires { phase_of (space.at (state self.old) place) ≡ Phase.UnderWay }
        ensures state { Moves space halted (state self.old) place (state self.new) }
        ensures tree { tree self.new ≡ tree self.old }
        ensures places { places self.new ≡ places self.old }
        ensures evaluations { evaluations self.new ≡ evaluations self.old }
        ensures loans { loans self.new ≡ loans self.old };

    /// The evaluation of a place that was stopped is given up. The place keeps its last value and is suspended.
    fn suspend(&mut self, place: Self::Place)
        requires { phase_of (space.at (state self.old) place) ≡ Phase.Stopped }
        ensures state { Moves space left (state self.old) place (state self.new) }
        ensures tree { tree self.new ≡ tree self.old }
        ensures places { places self.new ≡ places self.old }
        ensures evaluations { evaluations self.new ≡ evaluations self.old }
        ensures loans { loans self.new ≡ loans self.old };

    /// Evaluates a place whose evaluation is under way, from its beginning. At the end its value is written, or
    /// the mark of its fault. Where it reads a place that has no value yet, it answers the first such place,
    /// and nothing is written.
    ///
    /// Its only error is that memory ran out. Nothing is then said of the state.
    fn evaluate(&mut self, place: Self::Place) -> Result<Option<Self::Place>, AllocError>
        requires { phase_of (space.at (state self.old) place) ≡ Phase.UnderWay }
        ensures ok { IfOk result (λ needed. evaluated space place (tree self.old place) (state self.old) ≡ (needed, state self.new)) }
        ensures tree { tree self.new ≡ tree self.old }
        ensures places { places self.new ≡ places self.old }
        ensures evaluations { evaluations self.new ≤ suc (evaluations self.old) }
        ensures loans { loans self.new ≡ loans self.old };
}
