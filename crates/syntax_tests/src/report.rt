//! What a table's rows found and did not want.

use qml_ast::{DocFault, Span};
use std::alloc::{AllocError, Global};

/// Adds a line where what was found is not what was wanted.
pub(crate) fn note(
    report: &mut String,
    of: &str,
    found: &str,
    wanted: &str,
) -> Result<(), AllocError> {
    if found == wanted {
        return Ok(());
    }
    report.push_str(of)?;
    report.push_str(" gives ")?;
    report.push_str(found)?;
    report.push_str(" for ")?;
    report.push_str(wanted)?;
    report.push_str("\n")
}

/// A word and its place.
fn placed(alloc: Global, word: &str, at: Span) -> Result<String, AllocError> {
    format!(in alloc; "{word} {at}")
}

/// A fault of a text and its place.
pub(crate) fn told_fault(alloc: Global, fault: DocFault) -> Result<String, AllocError> {
    match fault {
        DocFault::NotUtf8 { at } => format!(in alloc; "NotUtf8 {at}"),
        DocFault::BadToken { at } => placed(alloc, "BadToken", at),
        DocFault::Syntax { at } => placed(alloc, "Syntax", at),
        DocFault::TooDeep { at } => placed(alloc, "TooDeep", at),
        DocFault::Unsupported { at } => placed(alloc, "Unsupported", at),
        _ => String::from_str(alloc, "another fault"),
    }
}
