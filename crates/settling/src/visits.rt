ghost use Rattle.std.specs.Prelude.{◌≡◌, ◌+◌, ◌≤◌, [], map, OnOk, IfOk, IsSortedByKey};
ghost use Rattle.settling.specs.Cells.{is_suspended};
ghost use Rattle.settling.specs.Settling.{settled, Covers, IsReady};
ghost use Rattle.settling.specs.Laws.{IsSettled};
ghost use Rattle.settling.specs.Loops.{shown, has_loop, AreOnce, AreChains};
ghost use Rattle.settling.specs.Stacks.{Stands, IsWithin, IsVisited};
ghost use Rattle.settling.specs.Work.{work, IsPaid};

use crate::field::{Field, Phase};
use crate::found::LoopFound;
use crate::turns::{enter, turn};
use std::alloc::{AllocError, Global};

/// Visits a place while no evaluation is under way.
fn visit<F: Field>(
    alloc: Global,
    field: &mut F,
    place: F::Place,
    stack: &mut Vec<F::Place>,
    loops: &mut Vec<LoopFound<F::Place>>,
) -> Result<(), AllocError>
    requires empty { stack.old.items ≡ [] }
    requires stands { Stands F.space (F.tree field.old) [] (F.state field.old) (map shown loops.old.items) }
    requires within { IsWithin F.space (F.places field.old) (F.state field.old) }
    ensures visited { OnOk result (IsVisited F.space (F.tree field.old) (F.state field.old) place (F.state field.new)) }
    ensures stands { OnOk result (Stands F.space (F.tree field.old) [] (F.state field.new) (map shown loops.new.items)) }
    ensures empty { OnOk result (stack.new.items ≡ []) }
    ensures paid { OnOk result (IsPaid F.space (F.tree field.old) (F.places field.old) (F.evaluations field.old) (F.state field.old) (F.evaluations field.new) [] (F.state field.new)) }
    ensures tree { F.tree field.new ≡ F.tree field.old }
    ensures places { F.places field.new ≡ F.places field.old }
    ensures loans { F.loans field.new ≡ F.loans field.old }
{
    if field.phase(place) != Phase::Fresh {
        return Ok(());
    }
    enter(field, place, stack)?;
    while let Some(top) = stack.pop() {
        turn(alloc, field, top, stack, loops)?;
    }
    Ok(())
}

/// Brings the places of a field up to date (Qt 5 QML Reference, Property Binding; which place of a loop is
/// stopped is this engine's own rule): visits them in order, each after what its expression reads. A place
/// that is read while its evaluation is under way gives its last value, and its evaluation is stopped when
/// control returns to it. It then keeps the last value, is suspended, and is the place of a loop.
///
/// Answers the loops in the order of their places. Places that are done as it begins, those that stand
/// suspended among them, are left as they are. It recurses nowhere, however deep bindings depend on each other.
///
/// Its only error is that memory ran out. Nothing is then said of the field's state.
pub fn settle<F: Field>(
    alloc: Global,
    field: &mut F,
) -> Result<Vec<LoopFound<F::Place>>, AllocError>
    requires ready { IsReady F.space (F.state field.old) }
    requires covers { Covers F.space (F.places field.old) (F.state field.old) }

    ensures settled { OnOk result
        (F.state field.new ≡ settled F.space (F.tree field.old) (F.places field.old) (F.state field.old)) }
    ensures holds { OnOk result
        ((p : F.Place) → IsSettled F.space (F.tree field.old) (F.state field.old) (F.state field.new) p) }

    // Each loop has its chain over the settled state, and the loops are those of the suspended places, each once.
    ensures chains { IfOk result
        (λ loops. AreChains F.space (F.tree field.old) (F.state field.new) (map shown loops.items)) }
    ensures loops { IfOk result
        (λ loops. (p : F.Place) → is_suspended (F.space.at (F.state field.new) p) ≡ has_loop F.space (map shown loops.items) p) }
    ensures once { IfOk result (λ loops. AreOnce F.space (map shown loops.items)) }
    ensures ordered { IfOk result (λ loops. IsSortedByKey (λ found. found.place) F.Place.cmp loops.items) }

    // At most one evaluation for each place that was visited and one for each of its reads over the settled state.
    ensures few { OnOk result
        (F.evaluations field.new ≤ F.evaluations field.old
        + work F.space (F.tree field.old) (F.places field.old) (F.state field.old) (F.state field.new)) }

    ensures tree { F.tree field.new ≡ F.tree field.old }
    ensures places { F.places field.new ≡ F.places field.old }
    ensures loans { F.loans field.new ≡ F.loans field.old }
{
    let mut stack = Vec::new(alloc);
    let mut loops = Vec::new(alloc);
    let count = field.count();
    for index in 0..count {
        let place = field.place(index);
        visit(alloc, field, place, &mut stack, &mut loops)?;
    }
    loops.sort_by_key(|found| found.place)?;
    Ok(loops)
}
