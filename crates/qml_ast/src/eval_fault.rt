use std::alloc::{AllocError, AllocFailed};
use thiserror::Error;

/// Why an evaluation has no value.
#[derive(Clone, Copy, Debug, PartialEq, Eq, Error)]
pub enum EvalFault {
    /// A number does not fit 32 bits.
    #[error("overflow")]
    Overflow,
    /// A division by 0, or its remainder.
    #[error("zero divisor")]
    ZeroDivisor,
    /// A value is of a kind that is not taken here.
    #[error("wrong kind")]
    WrongKind,
    /// A name has no meaning.
    #[error("unknown name")]
    UnknownName,
    /// A member of null.
    #[error("member of null")]
    NullMember,
    /// The evaluation takes more steps, or calls within calls, than it may.
    #[error("too much")]
    TooMuch,
    /// A text has more than 65,536 bytes.
    #[error("text too long")]
    TextTooLong,
    /// What is written to is never written.
    #[error("read only")]
    ReadOnly,
    /// Memory ran out.
    #[error("no memory")]
    NoMemory,
}

impl From<AllocError> for EvalFault {
    ghost use Rattle.std.specs.Prelude.{◌≡◌};
    ghost use Rattle.qml_ast.specs.declared.eval_fault.EvalFault.TheVariants.{NoMemory};

    ghost from_gives = { λ _ fault. fault ≡ NoMemory };

    fn from(_error: AllocError) -> EvalFault {
        EvalFault::NoMemory
    }
}

impl<T: Drop> From<AllocFailed<T>> for EvalFault {
    ghost use Rattle.std.specs.Prelude.{◌≡◌};
    ghost use Rattle.qml_ast.specs.declared.eval_fault.EvalFault.TheVariants.{NoMemory};

    ghost from_gives = { λ _ fault. fault ≡ NoMemory };

    fn from(_error: AllocFailed<T>) -> EvalFault {
        EvalFault::NoMemory
    }
}
