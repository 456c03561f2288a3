ghost use Rattle.std.specs.Prelude.{◌≡◌};
ghost use Rattle.expr_eval.specs.Meanings.{Meanings};
ghost use Rattle.expr_eval.specs.Progress.{Gives, Grows, node, read};

use crate::reader::Reader;
use crate::trace::Trace;
use qml_ast::{EvalFault, Place, Value};
use std::alloc::{AllocError, AllocFailed, Global};

/// How many nodes of expressions one evaluation may visit.
const MOST_NODES: u32 = 100_000;

/// How far an evaluation has come.
#[derive(Drop)]
pub(crate) struct Progress {
    /// How many nodes were visited.
    pub(crate) nodes: u32,
    pub(crate) trace: Trace,
}

/// Why an evaluation goes no further.
#[derive(Clone, Copy)]
pub(crate) enum Halt {
    Faulted(EvalFault),
    Needs(Place),
    NoMemory,
}

impl From<AllocError> for Halt {
    ghost use Rattle.std.specs.Prelude.{◌≡◌};
    ghost use Rattle.expr_eval.specs.declared.progress.Halt.TheVariants.{NoMemory};

    ghost from_gives = { λ _ halt. halt ≡ NoMemory };

    fn from(_error: AllocError) -> Halt {
        Halt::NoMemory
    }
}

impl From<EvalFault> for Halt {
    ghost use Rattle.std.specs.Prelude.{◌≡◌};
    ghost use Rattle.expr_eval.specs.Progress.{halt_of};

    ghost from_gives = { λ fault halt. halt ≡ halt_of fault };

    fn from(fault: EvalFault) -> Halt {
        match fault {
            EvalFault::NoMemory => Halt::NoMemory,
            fault => Halt::Faulted(fault),
        }
    }
}

/// Counts the visit of a node. The fault is TooMuch where all were visited that may be.
pub(crate) fn visit_node(progress: &mut Progress) -> Result<(), Halt>
    ensures value { Gives (node progress.old) result progress.new }
    ensures grows { Grows progress.old progress.new }
{
    if progress.nodes >= MOST_NODES {
        return Err(Halt::Faulted(EvalFault::TooMuch));
    }
    progress.nodes += 1;
    Ok(())
}

/// Reads a place, and notes that it was read. Where the place has no value yet, it is needed.
pub(crate) fn read_place<R: Reader>(
    alloc: Global,
    place: Place,
    reader: &R,
    progress: &mut Progress,
) -> Result<Value, Halt>
    ensures value { Gives (read (R.clean reader.now) (R.means reader.now) place progress.old) result progress.new }
    ensures grows { progress.new.nodes ≡ progress.old.nodes }
{
    let Some(value) = reader.read(place) else {
        return Err(Halt::Needs(place));
    };
    let value = value.copy(alloc)?;
    progress.trace.note(place)?;
    Ok(value)
}
