//! What a table's rows found and did not want.

use qml_ast::{DocFault, Span};
use std::alloc::{AllocError, Global};

/// Adds a line where what was found is not what was wanted.
pub(crate) fn note(
    report: &mut String,
    of: &str,
    found: &str,
    wanted: &str,
) -> Result<(), AllocError> {
    if found == wanted {
        return Ok(());
    }
    report.push_str(of)?;
    report.push_str(" gives ")?;
    report.push_str(found)?;
    report.push_str(" for ")?;
    report.push_str(wanted)?;
    report.push_str("\n")
}

/// A word and its place.
pub(crate) fn placed(alloc: Global, word: &str, at: Span) -> Result<String, AllocError> {
    format!(in alloc; "{word} {at}")
}

/// A fault of what a document declares, with its place.
pub(crate) fn told_fault(alloc: Global, fault: DocFault) -> Result<String, AllocError> {
    match fault {
        DocFault::UnknownType { at } => placed(alloc, "UnknownType", at),
        DocFault::UnknownProperty { at } => placed(alloc, "UnknownProperty", at),
        DocFault::BadId { at } => placed(alloc, "BadId", at),
        DocFault::DuplicateId { at } => placed(alloc, "DuplicateId", at),
        DocFault::DuplicateName { at } => placed(alloc, "DuplicateName", at),
        DocFault::WrongLiteral { at } => placed(alloc, "WrongLiteral", at),
        DocFault::ReadOnly { at } => placed(alloc, "ReadOnly", at),
        _ => String::from_str(alloc, "another fault"),
    }
}
