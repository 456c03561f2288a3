ghost use Rattle.std.specs.Prelude.{◌≡◌};
ghost use Rattle.qml_types.specs.Faults.{place, rank, earlier, told};
ghost use Rattle.qml_types.specs.Rules.{unless};

use qml_ast::{DocFault, Span};
use std::cmp::Ordering;

// Where a fault stands among faults: by line, by column, and at one place by the order of `DocFault`.
#[derive(Clone, Copy, PartialEq, Eq, PartialOrd, Ord)]
struct FaultOrder {
    line: u32,
    col: u32,
    rank: u8,
}

fn place(fault: DocFault) -> Span
    ensures { result ≡ place fault }
{
    match fault {
        DocFault::BadToken { at }
        | DocFault::Syntax { at }
        | DocFault::TooDeep { at }
        | DocFault::Unsupported { at }
        | DocFault::UnknownType { at }
        | DocFault::UnknownProperty { at }
        | DocFault::BadId { at }
        | DocFault::DuplicateId { at }
        | DocFault::DuplicateName { at }
        | DocFault::WrongLiteral { at }
        | DocFault::ReadOnly { at } => at,
        DocFault::NotUtf8 { .. } | DocFault::NoMemory => Span { line: 0, col: 0 },
    }
}

fn rank(fault: DocFault) -> u8
    ensures { result ≡ rank fault }
{
    match fault {
        DocFault::NotUtf8 { .. } => 0,
        DocFault::BadToken { .. } => 1,
        DocFault::Syntax { .. } => 2,
        DocFault::TooDeep { .. } => 3,
        DocFault::Unsupported { .. } => 4,
        DocFault::UnknownType { .. } => 5,
        DocFault::UnknownProperty { .. } => 6,
        DocFault::BadId { .. } => 7,
        DocFault::DuplicateId { .. } => 8,
        DocFault::DuplicateName { .. } => 9,
        DocFault::WrongLiteral { .. } => 10,
        DocFault::ReadOnly { .. } => 11,
        DocFault::NoMemory => 12,
    }
}

fn order(fault: DocFault) -> FaultOrder
    ensures line { result.line ≡ (place fault).line }
    ensures col { result.col ≡ (place fault).col }
    ensures rank { result.rank ≡ rank fault }
{
    let Span { line, col } = place(fault);
    FaultOrder {
        line,
        col,
        rank: rank(fault),
    }
}

/// Keeps the earlier of the first fault so far and this one.
#[tactic(auto, unfolding(crate::specs::Faults::earlier, crate::specs::Faults::fault_cmp))]
pub fn tell(first: &mut Option<DocFault>, fault: DocFault)
    ensures { first.new ≡ earlier first.old fault }
{
    match *first {
        Some(found) => {
            if order(fault).cmp(&order(found)) == Ordering::Less {
                *first = Some(fault);
            }
        }
        None => *first = Some(fault),
    }
}

/// The same, where something does not hold.
pub fn tell_unless(first: &mut Option<DocFault>, holds: bool, fault: DocFault)
    ensures { first.new ≡ told first.old (unless holds fault) }
{
    if !holds {
        tell(first, fault);
    }
}
