use std::alloc::AllocError;
use thiserror::Error;

/// Why a component is not made.
#[derive(Clone, Copy, Debug, PartialEq, Eq, Error)]
pub enum MakeFault {
    /// There would be more than 100,000 objects, or more serials or contexts than have numbers.
    #[error("object limit")]
    Full,
    /// An object would stand more than 256 levels below its content item.
    #[error("depth limit")]
    Deep,
    /// Memory ran out.
    #[error("no memory")]
    NoMemory,
}

impl From<AllocError> for MakeFault {
    ghost use Rattle.std.specs.Prelude.{◌≡◌};
    ghost use Rattle.object_tree.specs.declared.fault.MakeFault.TheVariants.{NoMemory};

    ghost from_gives = { λ _ fault. fault ≡ NoMemory };

    fn from(_error: AllocError) -> MakeFault {
        MakeFault::NoMemory
    }
}
