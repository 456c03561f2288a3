//! What is done to a store and told of it.

use binding_engine::{Engine, Ignored, Settled, Writes};
use object_tree::Objects;
use qml_ast::{DocFault, EvalFault, Place, Value};
use settling::LoopFound;
use std::alloc::Global;

/// The place that is stopped, and the places through which it reads itself.
pub struct Loop {
    pub place: Place,
    pub chain: &'static [Place],
}

/// Something that is told of what a settle found.
pub enum Find {
    /// The places that show another value.
    Changed(&'static [Place]),
    Loops(&'static [Loop]),
    /// How many loops there are.
    LoopCount(usize),
    Faults(&'static [(Place, EvalFault)]),
    /// Whether a number at that place is beyond the range.
    Overflows(Place, bool),
    /// The anchors that are told, and whether each is the centre beside two tied lines.
    Ignored(&'static [(Place, bool)]),
}

/// Something that is told of a store, or done to it.
pub enum Step {
    /// A settle, and what it finds.
    Settle(&'static [Find]),
    /// The same after the write of a number.
    Write(Place, i32, &'static [Find]),
    /// What places hold.
    Numbers(&'static [(Place, i32)]),
    /// Whether a place holds true or false.
    Flag(Place, bool),
}

// Whether that is the loop, with the chain that is told of it.
fn is_loop(found: &LoopFound<Place>, told: &Loop) -> bool {
    found.place == told.place && found.chain.as_slice() == told.chain
}

// Whether these loops are found and no others.
fn are_loops(found: &[LoopFound<Place>], loops: &[Loop]) -> bool {
    found.len() == loops.len() && found.iter().zip(loops).all(|(a, b)| is_loop(a, b))
}

// Whether a number at that place is beyond the range.
fn overflows(faulted: &[(Place, EvalFault)], place: Place) -> bool {
    for fault in faulted {
        if fault.0 == place && fault.1 == EvalFault::Overflow {
            return true;
        }
    }
    false
}

// Whether these anchors are told and no others.
fn are_ignored(found: &[Ignored], ignored: &[(Place, bool)]) -> bool {
    found.len() == ignored.len()
        && found
            .iter()
            .zip(ignored)
            .all(|(a, b)| a.place == b.0 && a.center == b.1)
}

// Whether that is what a settle found.
fn is_found(settled: &Settled, find: &Find) -> bool {
    match find {
        Find::Changed(places) => settled.changed.as_slice() == *places,
        Find::Loops(loops) => are_loops(settled.loops.as_slice(), loops),
        Find::LoopCount(count) => settled.loops.len() == *count,
        Find::Faults(faults) => settled.faulted.as_slice() == *faults,
        Find::Overflows(place, is_so) => overflows(settled.faulted.as_slice(), *place) == *is_so,
        Find::Ignored(ignored) => are_ignored(settled.ignored.as_slice(), ignored),
    }
}

// Whether all of that is what a settle found.
fn are_found(settled: &Settled, finds: &[Find]) -> bool {
    for find in finds {
        if !is_found(settled, find) {
            return false;
        }
    }
    true
}

// Whether a settle finds that.
fn finds(
    alloc: Global,
    engine: &mut Engine,
    objects: &mut Objects,
    writes: &Writes,
    wanted: &[Find],
) -> Result<bool, DocFault> {
    let settled = engine.settle(alloc, objects, writes)?;
    Ok(are_found(&settled, wanted))
}

// Whether a settle finds that after the write of a number.
fn finds_of_write(
    alloc: Global,
    engine: &mut Engine,
    objects: &mut Objects,
    written: (Place, i32),
    wanted: &[Find],
) -> Result<bool, DocFault> {
    let (place, number) = written;
    let mut writes = Writes::new(alloc);
    objects.set_own(place, Value::Int(number));
    writes.push(place)?;
    finds(alloc, engine, objects, &writes, wanted)
}

// Whether a place holds that number.
fn holds(objects: &Objects, place: Place, number: i32) -> bool {
    match objects.value(place) {
        Some(Value::Int(held)) => *held == number,
        _ => false,
    }
}

// Whether places hold these numbers.
fn are_held(objects: &Objects, numbers: &[(Place, i32)]) -> bool {
    for (place, number) in numbers {
        if !holds(objects, *place, *number) {
            return false;
        }
    }
    true
}

// Whether a place holds that flag.
fn is_flag(objects: &Objects, place: Place, flag: bool) -> bool {
    match objects.value(place) {
        Some(Value::Bool(held)) => *held == flag,
        _ => false,
    }
}

// Whether a step holds, once it is done.
fn is_step(
    alloc: Global,
    engine: &mut Engine,
    objects: &mut Objects,
    step: &Step,
) -> Result<bool, DocFault> {
    match step {
        Step::Settle(wanted) => finds(alloc, engine, objects, &Writes::new(alloc), wanted),
        Step::Write(place, number, wanted) => {
            finds_of_write(alloc, engine, objects, (*place, *number), wanted)
        }
        Step::Numbers(numbers) => Ok(are_held(objects, numbers)),
        Step::Flag(place, flag) => Ok(is_flag(objects, *place, *flag)),
    }
}

/// Whether all the steps hold, one after the other.
pub fn are_steps(
    alloc: Global,
    engine: &mut Engine,
    objects: &mut Objects,
    steps: &[Step],
) -> Result<bool, DocFault> {
    for step in steps {
        if !is_step(alloc, engine, objects, step)? {
            return Ok(false);
        }
    }
    Ok(true)
}
