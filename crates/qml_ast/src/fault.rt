use crate::name::Name;
use crate::span::Span;
use std::alloc::{AllocError, AllocFailed};
use thiserror::Error;

/// Why a document was not read, or has no meaning.
#[derive(Clone, Copy, Debug, PartialEq, Eq, Error)]
pub enum DocFault {
    /// The document is not UTF-8.
    #[error("not UTF-8 at byte {at}")]
    NotUtf8 {
        /// The first wrong byte, counted from 0.
        at: u64,
    },
    /// There is no token of the language here.
    #[error("{at}: bad token")]
    BadToken {
        at: Span,
    },
    /// No document can have this token here.
    #[error("{at}: syntax")]
    Syntax {
        at: Span,
    },
    /// The 65th level within levels, or the 201st node of one expression, begins here.
    #[error("{at}: too deep")]
    TooDeep {
        at: Span,
    },
    /// QML has this and the engine has not.
    #[error("{at}: unsupported")]
    Unsupported {
        at: Span,
    },
    /// No type has this name.
    #[error("{at}: unknown type")]
    UnknownType {
        at: Span,
    },
    /// The object has no such property, signal or child.
    #[error("{at}: unknown property")]
    UnknownProperty {
        at: Span,
    },
    /// No object can have this id.
    #[error("{at}: bad id")]
    BadId {
        at: Span,
    },
    /// An earlier object of the document has this id, or this object has one.
    #[error("{at}: duplicate id")]
    DuplicateId {
        at: Span,
    },
    /// The object has declared or initialised this name before.
    #[error("{at}: duplicate name")]
    DuplicateName {
        at: Span,
    },
    /// The property cannot take a literal of this kind.
    #[error("{at}: wrong literal")]
    WrongLiteral {
        at: Span,
    },
    /// The property is not initialised by documents.
    #[error("{at}: read only")]
    ReadOnly {
        at: Span,
    },
    /// Memory ran out.
    #[error("no memory")]
    NoMemory,
}

impl From<AllocError> for DocFault {
    ghost use Rattle.std.specs.Prelude.{◌≡◌};
    ghost use Rattle.qml_ast.specs.declared.fault.DocFault.TheVariants.{NoMemory};

    ghost from_gives = { λ _ fault. fault ≡ NoMemory };

    fn from(_error: AllocError) -> DocFault {
        DocFault::NoMemory
    }
}

impl<T: Drop> From<AllocFailed<T>> for DocFault {
    ghost use Rattle.std.specs.Prelude.{◌≡◌};
    ghost use Rattle.qml_ast.specs.declared.fault.DocFault.TheVariants.{NoMemory};

    ghost from_gives = { λ _ fault. fault ≡ NoMemory };

    fn from(_error: AllocFailed<T>) -> DocFault {
        DocFault::NoMemory
    }
}

/// Why a document was not loaded with the documents that it names.
#[derive(Debug, Drop, Error)]
pub enum LoadFault {
    /// There is no file of that name.
    #[error("{name}: missing")]
    Missing {
        /// The file.
        name: Name,
    },
    /// The file has more bytes than a document may have.
    #[error("{name}: too long")]
    TooLong {
        /// The file.
        name: Name,
    },
    /// More documents are named than one load may have.
    #[error("too many documents")]
    TooMany,
    /// The document is made of itself.
    #[error("{name}: cycle")]
    Cycle {
        /// Its file.
        name: Name,
    },
    /// The file's text was not read as a document, or has no meaning.
    #[error("{name}: {fault}")]
    Doc {
        /// The file.
        name: Name,
        /// Why.
        fault: DocFault,
    },
    /// A file could not be read.
    #[error("read fault")]
    Read,
    /// Memory ran out.
    #[error("no memory")]
    NoMemory,
}

impl From<AllocError> for LoadFault {
    ghost use Rattle.std.specs.Prelude.{◌≡◌};
    ghost use Rattle.qml_ast.specs.declared.fault.LoadFault.TheVariants.{NoMemory};

    ghost from_gives = { λ _ fault. fault ≡ NoMemory };

    fn from(_error: AllocError) -> LoadFault {
        LoadFault::NoMemory
    }
}

impl<T: Drop> From<AllocFailed<T>> for LoadFault {
    ghost use Rattle.std.specs.Prelude.{◌≡◌};
    ghost use Rattle.qml_ast.specs.declared.fault.LoadFault.TheVariants.{NoMemory};

    ghost from_gives = { λ _ fault. fault ≡ NoMemory };

    fn from(_error: AllocFailed<T>) -> LoadFault {
        LoadFault::NoMemory
    }
}
