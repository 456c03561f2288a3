ghost use Rattle.std.specs.Prelude.{◌≡◌, [], ◌∷◌, ◌++◌, true, map, None, IfOk, OnOk, length};
ghost use Rattle.settling.specs.Cells.{clean, is_open};
ghost use Rattle.settling.specs.Phases.{phase_of, Moves, begun};
ghost use Rattle.settling.specs.Loops.{shown};
ghost use Rattle.settling.specs.Work.{MaySpend};
ghost use Rattle.settling.specs.Turns.{above, Meets, Turns};

use crate::field::{Field, Phase};
use crate::found::LoopFound;
use std::alloc::{AllocError, Global};

/// The places that stand above this one.
fn chain_above<F: Field>(
    alloc: Global,
    field: &F,
    stack: &[F::Place],
    place: F::Place,
) -> Result<Vec<F::Place>, AllocError>
    ensures { IfOk result (λ chain. chain.items ≡ above F.space place stack.now) }
{
    for (index, other) in stack.iter().enumerate() {
        if field.are_same(*other, place) {
            return Vec::from_slice(alloc, &stack[index + 1..]);
        }
    }
    Ok(Vec::new(alloc))
}

/// The evaluation of a place that wasn't visited so far begins.
pub(crate) fn enter<F: Field>(
    field: &mut F,
    place: F::Place,
    stack: &mut Vec<F::Place>,
) -> Result<(), AllocError>
    requires { phase_of (F.space.at (F.state field.old) place) ≡ Phase.Fresh }
    ensures state { OnOk result (Moves F.space begun (F.state field.old) place (F.state field.new)) }
    ensures stack { OnOk result (stack.new.items ≡ stack.old.items ++ place ∷ []) }
    ensures tree { F.tree field.new ≡ F.tree field.old }
    ensures places { F.places field.new ≡ F.places field.old }
    ensures loans { F.loans field.new ≡ F.loans field.old }
    ensures evaluations { F.evaluations field.new ≡ F.evaluations field.old }
{
    stack.push(place)?;
    field.begin(place);
    Ok(())
}

/// A place is needed that has no value yet: its evaluation begins, or it is under way, which is a loop.
fn meet<F: Field>(
    alloc: Global,
    field: &mut F,
    place: F::Place,
    stack: &mut Vec<F::Place>,
    loops: &mut Vec<LoopFound<F::Place>>,
) -> Result<(), AllocError>
    requires { clean (F.space.at (F.state field.old) place) ≡ None }
    ensures meets { OnOk result (Meets F.space place
        stack.old.items (F.state field.old) (map shown loops.old.items)
        stack.new.items (F.state field.new) (map shown loops.new.items)) }
    ensures tree { F.tree field.new ≡ F.tree field.old }
    ensures places { F.places field.new ≡ F.places field.old }
    ensures loans { F.loans field.new ≡ F.loans field.old }
    ensures evaluations { F.evaluations field.new ≡ F.evaluations field.old }
{
    if field.phase(place) == Phase::Fresh {
        return enter(field, place, stack);
    }
    let chain = chain_above(alloc, field, stack.as_slice(), place)?;
    loops.push(LoopFound { place, chain })?;
    field.stop(place);
    Ok(())
}

/// Control is at a place that was taken from the stack.
pub(crate) fn turn<F: Field>(
    alloc: Global,
    field: &mut F,
    top: F::Place,
    stack: &mut Vec<F::Place>,
    loops: &mut Vec<LoopFound<F::Place>>,
) -> Result<(), AllocError>
    requires { is_open (F.space.at (F.state field.old) top) ≡ true }
    ensures turns { OnOk result (Turns F.space (F.tree field.old) top
        stack.old.items (F.state field.old) (map shown loops.old.items)
        stack.new.items (F.state field.new) (map shown loops.new.items)) }
    ensures spends { OnOk result (MaySpend (F.space.at (F.state field.old) top) (F.evaluations field.old) (F.evaluations field.new)) }
    ensures tree { F.tree field.new ≡ F.tree field.old }
    ensures places { F.places field.new ≡ F.places field.old }
    ensures loans { F.loans field.new ≡ F.loans field.old }
{
    if field.phase(top) == Phase::Stopped {
        field.suspend(top);
        return Ok(());
    }
    match field.evaluate(top)? {
        Some(needed) => {
            stack.push(top)?;
            meet(alloc, field, needed, stack, loops)
        }
        None => Ok(()),
    }
}
