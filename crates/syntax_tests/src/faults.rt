//! The texts of faults.

use crate::report::note;
use qml_ast::{DocFault, EvalFault, LoadFault, Name, Span};
use std::alloc::{AllocError, Global};
use std::test::Fail;

const EVALUATIONS: &[(EvalFault, &str)] = &[
    (EvalFault::Overflow, "overflow"),
    (EvalFault::ZeroDivisor, "zero divisor"),
    (EvalFault::WrongKind, "wrong kind"),
    (EvalFault::UnknownName, "unknown name"),
    (EvalFault::NullMember, "member of null"),
    (EvalFault::TooMuch, "too much"),
    (EvalFault::TextTooLong, "text too long"),
    (EvalFault::ReadOnly, "read only"),
    (EvalFault::NoMemory, "no memory"),
];

const AT: Span = Span { line: 2, col: 15 };

const DOCUMENTS: &[(DocFault, &str)] = &[
    (DocFault::NotUtf8 { at: 7 }, "not UTF-8 at byte 7"),
    (DocFault::BadToken { at: AT }, "2:15: bad token"),
    (DocFault::Syntax { at: AT }, "2:15: syntax"),
    (DocFault::TooDeep { at: AT }, "2:15: too deep"),
    (DocFault::Unsupported { at: AT }, "2:15: unsupported"),
    (DocFault::UnknownType { at: AT }, "2:15: unknown type"),
    (
        DocFault::UnknownProperty { at: AT },
        "2:15: unknown property",
    ),
    (DocFault::BadId { at: AT }, "2:15: bad id"),
    (DocFault::DuplicateId { at: AT }, "2:15: duplicate id"),
    (DocFault::DuplicateName { at: AT }, "2:15: duplicate name"),
    (DocFault::WrongLiteral { at: AT }, "2:15: wrong literal"),
    (DocFault::ReadOnly { at: AT }, "2:15: read only"),
    (DocFault::NoMemory, "no memory"),
];

/// A way in which loading ends early.
#[derive(Clone, Copy)]
enum Ending {
    Missing,
    TooLong,
    TooMany,
    Cycle,
    Doc(DocFault),
    Read,
    NoMemory,
}

const LOADS: &[(Ending, &str)] = &[
    (Ending::Missing, "Main.qml: missing"),
    (Ending::TooLong, "Main.qml: too long"),
    (Ending::TooMany, "too many documents"),
    (Ending::Cycle, "Main.qml: cycle"),
    (
        Ending::Doc(DocFault::BadId { at: AT }),
        "Main.qml: 2:15: bad id",
    ),
    (Ending::Read, "read fault"),
    (Ending::NoMemory, "no memory"),
];

fn load_fault(alloc: Global, ending: Ending) -> Result<LoadFault, AllocError> {
    let name = Name::new(alloc, "Main.qml")?;
    Ok(match ending {
        Ending::Missing => LoadFault::Missing { name },
        Ending::TooLong => LoadFault::TooLong { name },
        Ending::TooMany => LoadFault::TooMany,
        Ending::Cycle => LoadFault::Cycle { name },
        Ending::Doc(fault) => LoadFault::Doc { name, fault },
        Ending::Read => LoadFault::Read,
        Ending::NoMemory => LoadFault::NoMemory,
    })
}

fn differing_evaluations(alloc: Global) -> Result<String, AllocError> {
    let mut report = String::new(alloc);
    for (fault, wanted) in EVALUATIONS {
        note(
            &mut report,
            "a fault",
            fault.to_string(alloc)?.as_str(),
            wanted,
        )?;
    }
    Ok(report)
}

fn differing_documents(alloc: Global) -> Result<String, AllocError> {
    let mut report = String::new(alloc);
    for (fault, wanted) in DOCUMENTS {
        note(
            &mut report,
            "a fault",
            fault.to_string(alloc)?.as_str(),
            wanted,
        )?;
    }
    Ok(report)
}

fn differing_loads(alloc: Global) -> Result<String, AllocError> {
    let mut report = String::new(alloc);
    for (ending, wanted) in LOADS {
        let text = load_fault(alloc, *ending)?.to_string(alloc)?;
        note(&mut report, "a fault", text.as_str(), wanted)?;
    }
    Ok(report)
}

#[test]
fn texts_of_faults(rt: HostRuntime) -> Result<(), Fail> {
    let evaluations = differing_evaluations(rt.alloc())?;
    let documents = differing_documents(rt.alloc())?;
    let loads = differing_loads(rt.alloc())?;
    assert!(rt; evaluations.is_empty() && documents.is_empty() && loads.is_empty());
    Ok(())
}
