use qml_ast::EvalFault;
use std::alloc::{AllocError, AllocFailed};

/// How a write or a signal ended.
#[derive(Clone, Copy, Debug, PartialEq, Eq)]
pub enum Ran {
    /// All of its handlers ran, or none did since a limit was met before in this move.
    Ended,
    /// As many statements had run as may run in one move, and there was one more.
    Budget,
    /// As many handlers were nested as may be, and there was one more.
    TooDeep,
}

/// Why all that runs ends.
#[derive(Clone, Copy, Debug, PartialEq, Eq)]
pub enum Halt {
    Budget,
    TooDeep,
    NoMemory,
}

/// Why a statement ends what it stands in.
#[derive(Clone, Copy)]
pub enum Stop {
    /// It has a fault, which ends the handler.
    Fault(EvalFault),
    /// All that runs ends.
    Halted(Halt),
}

/// How a statement goes on.
#[derive(Clone, Copy, Debug, PartialEq, Eq)]
pub enum Flow {
    /// With the next statement.
    Going,
    /// It was a `return`: the handler ends.
    Returned,
}

impl From<AllocError> for Halt {
    ghost use Rattle.std.specs.Prelude.{◌≡◌};
    ghost use Rattle.signals.specs.declared.ending.Halt.TheVariants.{NoMemory};

    ghost from_gives = { λ _ halt. halt ≡ NoMemory };

    fn from(_error: AllocError) -> Halt {
        Halt::NoMemory
    }
}

impl From<AllocError> for Stop {
    ghost use Rattle.std.specs.Prelude.{◌≡◌};
    ghost use Rattle.signals.specs.declared.ending.Halt.TheVariants.{NoMemory};
    ghost use Rattle.signals.specs.declared.ending.Stop.TheVariants.{Halted};

    ghost from_gives = { λ _ stop. stop ≡ Halted NoMemory };

    fn from(_error: AllocError) -> Stop {
        Stop::Halted(Halt::NoMemory)
    }
}

impl From<Halt> for Stop {
    ghost use Rattle.std.specs.Prelude.{◌≡◌};
    ghost use Rattle.signals.specs.declared.ending.Stop.TheVariants.{Halted};

    ghost from_gives = { λ halt stop. stop ≡ Halted halt };

    fn from(halt: Halt) -> Stop {
        Stop::Halted(halt)
    }
}

impl From<EvalFault> for Stop {
    ghost use Rattle.std.specs.Prelude.{◌≡◌};
    ghost use Rattle.signals.specs.Endings.{stop_of};

    ghost from_gives = { λ fault stop. stop ≡ stop_of fault };

    fn from(fault: EvalFault) -> Stop {
        match fault {
            EvalFault::NoMemory => Stop::Halted(Halt::NoMemory),
            fault => Stop::Fault(fault),
        }
    }
}
