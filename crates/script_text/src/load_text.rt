ghost use Rattle.std.specs.Prelude.{◌≡◌, IfOk, string_bytes};
ghost use Rattle.script_text.specs.LoadFaults.{at_place, doc_fault_text, load_fault_text};

use qml_ast::{DocFault, LoadFault, Span};
use std::alloc::{AllocError, Global};

/// Why a document was not loaded, as a line with its LF.
///
/// # Errors
///
/// `AllocError` if memory runs out.
pub fn load_fault_text(alloc: Global, fault: &LoadFault) -> Result<String, AllocError>
    ensures { IfOk result (λ text. string_bytes text ≡ load_fault_text fault.now) }
{
    match fault {
        LoadFault::Missing { name } => format!(in alloc; "{}: missing\n", name.as_str()),
        LoadFault::TooLong { name } => format!(in alloc; "{}: too long\n", name.as_str()),
        LoadFault::TooMany => String::from_str(alloc, "too many documents\n"),
        LoadFault::Cycle { name } => format!(in alloc; "{}: cycle\n", name.as_str()),
        LoadFault::Doc { name, fault } => {
            let what = doc_fault_text(alloc, *fault)?;
            format!(in alloc; "{}{}", name.as_str(), what.as_str())
        }
        LoadFault::Read => String::from_str(alloc, "read fault\n"),
        LoadFault::NoMemory => String::from_str(alloc, "no memory\n"),
    }
}

// What stands behind a document's name: a place and a word, or the first byte that is not UTF-8.
fn doc_fault_text(alloc: Global, fault: DocFault) -> Result<String, AllocError>
    ensures { IfOk result (λ text. string_bytes text ≡ doc_fault_text fault) }
{
    match fault {
        DocFault::NotUtf8 { at } => format!(in alloc; ": not UTF-8 at byte {at}\n"),
        DocFault::BadToken { at } => at_place(alloc, at, "bad token"),
        DocFault::Syntax { at } => at_place(alloc, at, "syntax"),
        DocFault::TooDeep { at } => at_place(alloc, at, "too deep"),
        DocFault::Unsupported { at } => at_place(alloc, at, "unsupported"),
        DocFault::UnknownType { at } => at_place(alloc, at, "unknown type"),
        DocFault::UnknownProperty { at } => at_place(alloc, at, "unknown property"),
        DocFault::BadId { at } => at_place(alloc, at, "bad id"),
        DocFault::DuplicateId { at } => at_place(alloc, at, "duplicate id"),
        DocFault::DuplicateName { at } => at_place(alloc, at, "duplicate name"),
        DocFault::WrongLiteral { at } => at_place(alloc, at, "wrong literal"),
        DocFault::ReadOnly { at } => at_place(alloc, at, "read only"),
        DocFault::NoMemory => String::from_str(alloc, ": no memory\n"),
    }
}

// What is wrong at a place.
fn at_place(alloc: Global, at: Span, what: &str) -> Result<String, AllocError>
    ensures { IfOk result (λ text. string_bytes text ≡ at_place at what.now) }
{
    format!(in alloc; ":{}:{}: {what}\n", at.line, at.col)
}
