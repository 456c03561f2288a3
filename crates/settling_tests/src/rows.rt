use crate::net::{Fault, Rule, Slot, Stage, first_slots, settle_slots};
use settling::LoopFound;
use std::alloc::{AllocError, Global};
use std::test::Fail;

struct Loop {
    place: usize,
    chain: &'static [usize],
}

/// Expressions, what each place has once they are settled, the loops in the order of their places, and how many
/// evaluations there are.
struct Case {
    rules: &'static [Rule],
    slots: &'static [Slot],
    loops: &'static [Loop],
    evaluations: usize,
}

macro_rules! slot {
    ($stage:ident $value:expr) => {
        Slot {
            stage: Stage::$stage,
            value: $value,
            mark: None,
        }
    };
}

macro_rules! fault {
    ($value:expr, $fault:ident) => {
        Slot {
            stage: Stage::Marked,
            value: $value,
            mark: Some(Fault::$fault),
        }
    };
}

macro_rules! found {
    ($place:expr, $chain:expr) => {
        Loop {
            place: $place,
            chain: $chain,
        }
    };
}

macro_rules! case {
    ($rules:expr => $slots:expr, $loops:expr, $evaluations:expr) => {
        Case {
            rules: $rules,
            slots: $slots,
            loops: $loops,
            evaluations: $evaluations,
        }
    };
}

static CASES: [Case; 15] = [
    case!(&[] => &[], &[], 0),
    // two places that read each other
    case!(&[Rule::Next(1), Rule::Next(0)] => &[slot!(Suspended 0), slot!(Active 1)], &[found!(0, &[1])], 3),
    // a diamond is no loop, from either end
    case!(&[Rule::Number(1), Rule::Same(0), Rule::Sum(0, 1)] => &[slot!(Active 1), slot!(Active 1), slot!(Active 2)], &[], 3),
    case!(&[Rule::Sum(2, 1), Rule::Same(2), Rule::Number(1)] => &[slot!(Active 2), slot!(Active 1), slot!(Active 1)], &[], 5),
    // a place that reads itself, and one that reads it
    case!(&[Rule::Next(0), Rule::Next(0)] => &[slot!(Suspended 0), slot!(Active 1)], &[found!(0, &[])], 2),
    // both places that the first one reads lead back to it: its evaluation stops at the first return
    case!(&[Rule::Sum(1, 2), Rule::Next(0), Rule::Next(0)] => &[slot!(Suspended 0), slot!(Active 1), slot!(Active 1)], &[found!(0, &[1])], 4),
    // the last place reads both of those under way, and goes on
    case!(&[Rule::Next(1), Rule::Next(2), Rule::Sum(1, 0)] => &[slot!(Suspended 0), slot!(Suspended 0), slot!(Active 0)],
        &[found!(0, &[1, 2]), found!(1, &[2])], 5),
    // the loop is entered at the last place, which is the suspended one
    case!(&[Rule::Next(3), Rule::Next(2), Rule::Next(3), Rule::Next(1)] =>
        &[slot!(Active 1), slot!(Active 2), slot!(Active 1), slot!(Suspended 0)], &[found!(3, &[1, 2])], 7),
    // two loops
    case!(&[Rule::Same(3), Rule::Next(2), Rule::Next(1), Rule::Next(4), Rule::Next(3)] =>
        &[slot!(Active 0), slot!(Suspended 0), slot!(Active 1), slot!(Suspended 0), slot!(Active 1)],
        &[found!(1, &[2]), found!(3, &[4])], 8),
    // another place decides whether there is a loop
    case!(&[Rule::Choice(1, 0, 2), Rule::Number(0), Rule::Number(5)] => &[slot!(Active 5), slot!(Active 0), slot!(Active 5)], &[], 5),
    case!(&[Rule::Choice(1, 0, 2), Rule::Number(3), Rule::Number(5)] => &[slot!(Suspended 0), slot!(Active 3), slot!(Active 5)],
        &[found!(0, &[])], 4),
    // an expression that faults leaves the last value, which others read
    case!(&[Rule::Next(1), Rule::Fails] => &[slot!(Active 1), fault!(0, WrongKind)], &[], 3),
    case!(&[Rule::Next(1), Rule::Plain(4294967295)] => &[fault!(0, Overflow), slot!(Plain 4294967295)], &[], 1),
    // what stands suspended is left as it is, and no loop is found there
    case!(&[Rule::Sum(1, 2), Rule::Resting(7), Rule::Same(1)] => &[slot!(Active 14), slot!(Resting 7), slot!(Active 7)], &[], 3),
    // what is done as the settle begins isn't evaluated
    case!(&[Rule::Next(1), Rule::Done(4), Rule::Next(0)] => &[slot!(Active 5), slot!(Active 4), slot!(Active 6)], &[], 2),
];

fn are_loops(found: &[LoopFound<usize>], loops: &[Loop]) -> bool {
    found.len() == loops.len()
        && found.iter().zip(loops).all(|(a, b)| a.place == b.place && a.chain.as_slice() == b.chain)
}

fn settles(alloc: Global, case: &Case) -> Result<bool, AllocError> {
    let mut slots = first_slots(alloc, case.rules)?;
    let settled = settle_slots(alloc, case.rules, &mut slots)?;
    Ok(
        slots.as_slice() == case.slots
            && are_loops(settled.loops.as_slice(), case.loops)
            && settled.evaluations == case.evaluations,
    )
}

#[test]
fn small_fields(rt: HostRuntime) -> Result<(), Fail> {
    for case in &CASES {
        let settled = settles(rt.alloc(), case)?;
        assert!(rt; settled);
    }
    Ok(())
}

/// The value of the first place of a chain, each of which is one more than the next.
fn first_of_chain(alloc: Global, length: usize) -> Result<Option<u32>, AllocError> {
    let mut rules = Vec::new(alloc);
    for place in 1..length {
        rules.push(Rule::Next(place))?;
    }
    rules.push(Rule::Number(1))?;
    let mut slots = first_slots(alloc, rules.as_slice())?;
    settle_slots(alloc, rules.as_slice(), &mut slots)?;
    Ok(slots.get(0).map(|slot| slot.value))
}

#[test]
fn long_chain(rt: HostRuntime) -> Result<(), Fail> {
    let first = first_of_chain(rt.alloc(), 100_000)?;
    assert!(rt; first == Some(100_000));
    Ok(())
}
