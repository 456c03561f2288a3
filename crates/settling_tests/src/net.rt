//! Numbered places with small expressions.
ghost use Rattle.std.specs.Prelude.{◌≡◌, [], ◌∷◌, ◌<◌, List, length, IfOk, OnOk, slice_set};
ghost use Rattle.settling.specs.Cells.{clean};
ghost use Rattle.settling.specs.Runs.{gives, asks};
ghost use Rattle.settling.specs.Evaluations.{walk};
ghost use Rattle.settling.specs.Settling.{IsReady, Covers, settled};
ghost use Rattle.settling_tests.specs.Nets.{slot_at, rule_at, at, space, summed, tree_of, first_of, outcome_of, upto};

use settling::{Field, LoopFound, Phase, settle};
use sqlite_items::Items;
use std::alloc::{AllocError, Global};

#[derive(Clone, Copy, PartialEq, Eq)]
pub enum Fault {
    Overflow,
    WrongKind,
}

/// The expression of a place.
#[derive(Clone, Copy)]
pub enum Rule {
    /// None: the place has this value.
    Plain(u32),
    /// It stands suspended with this value.
    Resting(u32),
    /// It was evaluated before, and has this value.
    Done(u32),
    Number(u32),
    /// The same as a place.
    Same(usize),
    /// One more than a place.
    Next(usize),
    Sum(usize, usize),
    /// The second place where the first one isn't 0, and else the third.
    Choice(usize, usize, usize),
    Fails,
}

#[derive(Clone, Copy, PartialEq, Eq)]
pub enum Stage {
    Plain,
    Resting,
    Fresh,
    UnderWay,
    Stopped,
    Active,
    Marked,
    Suspended,
}

#[derive(Clone, Copy, PartialEq, Eq)]
pub struct Slot {
    pub stage: Stage,
    pub value: u32,
    pub mark: Option<Fault>,
}

pub const NO_SLOT: Slot = Slot {
    stage: Stage::Plain,
    value: 0,
    mark: None,
};

/// What comes of an evaluation.
#[derive(Clone, Copy)]
enum Outcome {
    Is(u32),
    Faulted(Fault),
    Needs(usize),
}

#[derive(Drop)]
pub struct Net<'a> {
    pub rules: &'a [Rule],
    pub slots: &'a mut Items<Slot>,
    pub evaluations: usize,
}

/// What a place has as a settle begins.
fn first_slot(rule: Rule) -> Slot
    ensures { result ≡ first_of rule }
{
    let (stage, value) = match rule {
        Rule::Plain(n) => (Stage::Plain, n),
        Rule::Resting(n) => (Stage::Resting, n),
        Rule::Done(n) => (Stage::Active, n),
        _ => (Stage::Fresh, 0),
    };
    Slot {
        stage,
        value,
        mark: None,
    }
}

/// What the places of these expressions have as a settle begins.
#[tactic(auto, using(crate::proofs::Numbers::covered))]
pub fn first_slots(alloc: Global, rules: &[Rule]) -> Result<Items<Slot>, AllocError>
    ensures ready { IfOk result (IsReady space) }
    ensures covers { IfOk result (λ slots. Covers space (upto (length slots)) slots) }
{
    let slots: Vec<Slot> = rules.iter().map(|rule| first_slot(*rule)).collect(alloc)?;
    Ok(Items::from_vec(slots))
}

impl Net<'_> {
    fn slot(&self, place: usize) -> Slot
        ensures { result ≡ slot_at self.now.slots.now place }
    {
        match self.slots.get(place) {
            Some(slot) => *slot,
            None => NO_SLOT,
        }
    }

    fn rule(&self, place: usize) -> Rule
        ensures { result ≡ rule_at self.now.rules.now place }
    {
        match self.rules.get(place) {
            Some(rule) => *rule,
            None => Rule::Fails,
        }
    }

    /// The value of a place, where it has one already.
    fn read(&self, place: usize) -> Option<u32>
        ensures { result ≡ clean (at self.now.slots.now place) }
    {
        let slot = self.slot(place);
        match slot.stage {
            Stage::Fresh | Stage::UnderWay => None,
            _ => Some(slot.value),
        }
    }

    fn set(&mut self, place: usize, slot: Slot)
        requires { place < length self.old.slots.now }
        ensures slots { self.new.slots.now ≡ slice_set self.old.slots.now place slot }
        ensures rules { self.new.rules ≡ self.old.rules }
        ensures evaluations { self.new.evaluations ≡ self.old.evaluations }
        ensures same_reference { self.new.slots.ghost_name ≡ self.old.slots.ghost_name }
    {
        self.slots.set(place, slot);
    }
}

#[tactic(auto, unfolding(settling::specs::Evaluations::walk))]
fn sum_of(a: u32, b: u32) -> Outcome
    ensures { (slots : List Slot) → outcome_of result ≡ walk space (summed a b) slots }
{
    match a.checked_add(b) {
        Some(sum) => Outcome::Is(sum),
        None => Outcome::Faulted(Fault::Overflow),
    }
}

#[tactic(auto, unfolding(settling::specs::Evaluations::walk))]
impl Net<'_> {
    /// The sum of two places.
    fn sum(&self, p: usize, q: usize) -> Outcome
        ensures { outcome_of result ≡ walk space (tree_of (Rule.Sum p q)) self.now.slots.now }
    {
        let Some(a) = self.read(p) else {
            return Outcome::Needs(p);
        };
        match self.read(q) {
            Some(b) => sum_of(a, b),
            None => Outcome::Needs(q),
        }
    }

    fn next(&self, p: usize) -> Outcome
        ensures { outcome_of result ≡ walk space (tree_of (Rule.Next p)) self.now.slots.now }
    {
        match self.read(p) {
            Some(a) => sum_of(a, 1),
            None => Outcome::Needs(p),
        }
    }

    fn same(&self, p: usize) -> Outcome
        ensures { outcome_of result ≡ walk space (asks p gives) self.now.slots.now }
    {
        match self.read(p) {
            Some(a) => Outcome::Is(a),
            None => Outcome::Needs(p),
        }
    }

    fn choice(&self, p: usize, q: usize, r: usize) -> Outcome
        ensures { outcome_of result ≡ walk space (tree_of (Rule.Choice p q r)) self.now.slots.now }
    {
        match self.read(p) {
            Some(0) => self.same(r),
            Some(_) => self.same(q),
            None => Outcome::Needs(p),
        }
    }

    fn walk(&self, rule: Rule) -> Outcome
        ensures { outcome_of result ≡ walk space (tree_of rule) self.now.slots.now }
    {
        match rule {
            Rule::Plain(n) | Rule::Resting(n) | Rule::Done(n) | Rule::Number(n) => Outcome::Is(n),
            Rule::Same(p) => self.same(p),
            Rule::Next(p) => self.next(p),
            Rule::Sum(p, q) => self.sum(p, q),
            Rule::Choice(p, q, r) => self.choice(p, q, r),
            Rule::Fails => Outcome::Faulted(Fault::WrongKind),
        }
    }
}

impl Field for Net<'_> {
    type Place = usize;

    type Value = u32;

    type Fault = Fault;

    type State = Items<Slot>;

    ghost space = { space };

    ghost state = { λ net. net.slots.now };

    ghost tree = { λ net p. tree_of (rule_at net.rules.now p) };

    ghost places = { λ net. upto (length net.slots.now) };

    ghost evaluations = { λ net. net.evaluations };

    ghost loans = { λ net. net.slots.ghost_name ∷ [] };

    fn are_same(&self, p: usize, q: usize) -> bool {
        p == q
    }

    #[tactic(auto, using(crate::proofs::Numbers::upto_length))]
    fn count(&self) -> usize {
        self.slots.len()
    }

    #[tactic(auto, using(crate::proofs::Numbers::upto_at, crate::proofs::Numbers::upto_length))]
    fn place(&self, index: usize) -> usize {
        index
    }

    fn phase(&self, place: usize) -> Phase {
        match self.slot(place).stage {
            Stage::Fresh => Phase::Fresh,
            Stage::UnderWay => Phase::UnderWay,
            Stage::Stopped => Phase::Stopped,
            _ => Phase::Done,
        }
    }

    fn begin(&mut self, place: usize) {
        let slot = self.slot(place);
        self.set(
            place,
            Slot {
                stage: Stage::UnderWay,
                ..slot
            },
        );
    }

    fn stop(&mut self, place: usize) {
        let slot = self.slot(place);
        self.set(
            place,
            Slot {
                stage: Stage::Stopped,
                ..slot
            },
        );
    }

    fn suspend(&mut self, place: usize) {
        let slot = self.slot(place);
        self.set(
            place,
            Slot {
                stage: Stage::Suspended,
                ..slot
            },
        );
    }

    fn evaluate(&mut self, place: usize) -> Result<Option<usize>, AllocError> {
        self.evaluations = self.evaluations.saturating_add(1);
        let slot = self.slot(place);
        match self.walk(self.rule(place)) {
            Outcome::Is(value) => {
                let stage = Stage::Active;
                self.set(
                    place,
                    Slot {
                        stage,
                        value,
                        mark: None,
                    },
                );
                Ok(None)
            }
            Outcome::Faulted(fault) => {
                self.set(
                    place,
                    Slot {
                        stage: Stage::Marked,
                        value: slot.value,
                        mark: Some(fault),
                    },
                );
                Ok(None)
            }
            Outcome::Needs(needed) => Ok(Some(needed)),
        }
    }
}

/// The loops of a settle, and how many evaluations there were.
#[derive(Drop)]
pub struct Settled {
    pub loops: Vec<LoopFound<usize>>,
    pub evaluations: usize,
}

/// Settles slots that are lent to a field.
pub fn settle_slots(
    alloc: Global,
    rules: &[Rule],
    slots: &mut Items<Slot>,
) -> Result<Settled, AllocError>
    requires ready { IsReady space slots.old }
    requires covers { Covers space (upto (length slots.old)) slots.old }
    ensures { OnOk result
        (slots.new ≡ settled space (λ p. tree_of (rule_at rules.now p)) (upto (length slots.old)) slots.old) }
{
    let mut net = Net {
        rules,
        slots,
        evaluations: 0,
    };
    let loops = settle(alloc, &mut net)?;
    Ok(Settled {
        loops,
        evaluations: net.evaluations,
    })
}
