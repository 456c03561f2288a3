use qml_ast::DocFault;
use std::alloc::{AllocError, AllocFailed};

/// Why a document is not there.
#[derive(Drop)]
pub enum Flaw {
    /// There is no file.
    Missing,
    /// The file has more bytes than a document may have.
    TooLong,
    /// The file's text is no document.
    Doc(DocFault),
    /// The file could not be read.
    Read,
    /// Memory ran out.
    NoMemory,
}

impl From<AllocError> for Flaw {
    ghost use Rattle.std.specs.Prelude.{◌≡◌};
    ghost use Rattle.type_loader.specs.declared.flaw.Flaw.TheVariants.{NoMemory};

    ghost from_gives = { λ _ flaw. flaw ≡ NoMemory };

    fn from(_error: AllocError) -> Flaw {
        Flaw::NoMemory
    }
}

impl<T: Drop> From<AllocFailed<T>> for Flaw {
    ghost use Rattle.std.specs.Prelude.{◌≡◌};
    ghost use Rattle.type_loader.specs.declared.flaw.Flaw.TheVariants.{NoMemory};

    ghost from_gives = { λ _ flaw. flaw ≡ NoMemory };

    fn from(_error: AllocFailed<T>) -> Flaw {
        Flaw::NoMemory
    }
}
