ghost use Rattle.std.specs.Prelude.{⊤};

use polish::{Layouts, Rounds, polish};
use std::alloc::{AllocError, Global};
use std::test::Fail;

#[derive(Clone, Copy, PartialEq, Eq)]
enum Step {
    LaidOut(usize),
    Settled,
}

/// Positioners of which one writes until so many rounds have settled, and what was done.
#[derive(Drop)]
struct Page {
    positioners: usize,
    writer: usize,
    changing_rounds: u32,
    steps: Vec<Step>,
}

impl Layouts for Page {
    ghost size = { λ page. page.positioners };

    ghost lays_out = { λ _ _ _ _. ⊤ };

    ghost settles = { λ _ _. ⊤ };

    fn count(&self) -> usize {
        self.positioners
    }

    fn layout(&mut self, i: usize) -> Result<bool, AllocError> {
        self.steps.push(Step::LaidOut(i))?;
        Ok(i == self.writer && self.changing_rounds > 0)
    }

    fn settle(&mut self) -> Result<(), AllocError> {
        self.steps.push(Step::Settled)?;
        self.changing_rounds = self.changing_rounds.saturating_sub(1);
        Ok(())
    }
}

struct Case {
    positioners: usize,
    writer: usize,
    changing_rounds: u32,
    rounds: Rounds,
    steps: usize,
}

macro_rules! case {
    ($positioners:expr, $writer:expr, $changing_rounds:expr => $rounds:expr, $steps:expr) => {
        Case {
            positioners: $positioners,
            writer: $writer,
            changing_rounds: $changing_rounds,
            rounds: $rounds,
            steps: $steps,
        }
    };
}

static CASES: [Case; 8] = [
    case!(0, 0, 9 => Rounds::Still(1), 1),
    case!(2, 1, 0 => Rounds::Still(1), 3),
    case!(2, 1, 1 => Rounds::Still(2), 6),
    case!(2, 0, 1 => Rounds::Still(2), 6),
    case!(3, 1, 14 => Rounds::Still(15), 60),
    case!(3, 1, 15 => Rounds::Still(16), 64),
    case!(3, 1, 16 => Rounds::Loop, 64),
    case!(1, 0, 4294967295 => Rounds::Loop, 32),
];

static ONE_ROUND: [Step; 3] = [Step::LaidOut(0), Step::LaidOut(1), Step::Settled];

fn polished(alloc: Global, case: &Case) -> Result<(Rounds, Vec<Step>), AllocError> {
    let mut page = Page {
        positioners: case.positioners,
        writer: case.writer,
        changing_rounds: case.changing_rounds,
        steps: Vec::new(alloc),
    };
    let rounds = polish(alloc, &mut page)?;
    Ok((rounds, page.steps))
}

#[test]
fn rounds_go_on_while_something_changes(rt: HostRuntime) -> Result<(), Fail> {
    for case in &CASES {
        let (rounds, steps) = polished(rt.alloc(), case)?;
        assert!(rt; rounds == case.rounds && steps.len() == case.steps);
    }
    Ok(())
}

#[test]
fn positioners_are_laid_out_in_order(rt: HostRuntime) -> Result<(), Fail> {
    let (_, steps) = polished(rt.alloc(), &case!(2, 0, 1 => Rounds::Still(2), 6))?;
    let mut rounds = steps.chunks_exact(3);
    assert!(rt; rounds.all(|round| round == ONE_ROUND.as_slice()));
    Ok(())
}
