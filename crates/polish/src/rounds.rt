ghost use Rattle.std.specs.Prelude.{◌≡◌, [], IfOk};
ghost use Rattle.polish.specs.Rounds.{Round, Polishes};

use crate::layouts::Layouts;
use crate::waiting::Waiting;
use std::alloc::{AllocError, Global};

/// How the rounds of a polish ended.
#[derive(Clone, Copy, PartialEq, Eq)]
pub enum Rounds {
    /// After so many rounds, of which the last changed nothing, and each before it something.
    Still(u32),
    /// After 16 rounds, each of which changed something.
    Loop,
}

const MOST_ROUNDS: u32 = 16;

/// Lays out all positioners in order, and settles once. Answers whether some layout wrote something.
fn round<T: Layouts>(waiting: &mut Waiting, layouts: &mut T) -> Result<bool, AllocError>
    requires none { waiting.old.left ≡ [] }
    requires count { waiting.old.count ≡ T.size layouts.old }
    ensures round { IfOk result (λ changed.
        Round T.lays_out T.settles (T.size layouts.old) layouts.old changed layouts.new) }
    ensures count { T.size layouts.new ≡ T.size layouts.old }
    ensures left { IfOk result (λ _. waiting.new ≡ waiting.old) }
{
    waiting.fill();
    let mut changed = false;
    while let Some(positioner) = waiting.take_first() {
        let wrote = layouts.layout(positioner)?;
        changed |= wrote;
    }
    layouts.settle()?;
    Ok(changed)
}

/// Makes rounds up to the first that changes nothing, and at most 16. A round lays out the positioners
/// in order of their numbers and then settles once, and changes something exactly where some layout
/// wrote. The only error is that memory ran out; what was lent is then only to be given back.
pub fn polish<T: Layouts>(alloc: Global, layouts: &mut T) -> Result<Rounds, AllocError>
    ensures rounds { IfOk result (λ rounds.
        Polishes T.lays_out T.settles (T.size layouts.old) layouts.old rounds layouts.new) }
    ensures count { T.size layouts.new ≡ T.size layouts.old }
{
    let mut waiting = Waiting::new(alloc, layouts.count())?;
    for before in 0..MOST_ROUNDS {
        if !round(&mut waiting, layouts)? {
            return Ok(Rounds::Still(before + 1));
        }
    }
    Ok(Rounds::Loop)
}
