use qml_ast::{At, DocFault, EvalFault, LoadFault, Name, Span, Text};
use script_text::{LimitKind, Note, Notes, RunNote};
use std::alloc::Global;
use std::test::Fail;

const PLACE: Span = Span { line: 3, col: 14 };

/// A note of `Main.qml`, without what it borrows.
#[derive(Clone, Copy)]
enum Told {
    Loop(&'static str),
    Fault(EvalFault),
    Target(&'static str),
    Center(&'static str),
    Limit(LimitKind),
    Load(Refused),
    Run(RunNote),
    Log(&'static str),
}

/// A fault of a load of `A.qml`, without the name.
#[derive(Clone, Copy)]
enum Refused {
    Missing,
    TooLong,
    TooMany,
    Cycle,
    Doc(DocFault),
    Read,
    NoMemory,
}

/// Notes, and what is written of them.
const ROWS: &[(Told, &str)] = &[
    (
        Told::Loop("width"),
        "Main.qml:3:14: Binding loop detected for property \"width\"\n",
    ),
    (
        Told::Loop("anchors.leftMargin"),
        "Main.qml:3:14: Binding loop detected for property \"anchors.leftMargin\"\n",
    ),
    (
        Told::Fault(EvalFault::Overflow),
        "Main.qml:3:14: evaluation fault: overflow\n",
    ),
    (
        Told::Fault(EvalFault::ZeroDivisor),
        "Main.qml:3:14: evaluation fault: zero divisor\n",
    ),
    (
        Told::Fault(EvalFault::WrongKind),
        "Main.qml:3:14: evaluation fault: wrong kind\n",
    ),
    (
        Told::Fault(EvalFault::UnknownName),
        "Main.qml:3:14: evaluation fault: unknown name\n",
    ),
    (
        Told::Fault(EvalFault::NullMember),
        "Main.qml:3:14: evaluation fault: member of null\n",
    ),
    (
        Told::Fault(EvalFault::TooMuch),
        "Main.qml:3:14: evaluation fault: too much\n",
    ),
    (
        Told::Fault(EvalFault::TextTooLong),
        "Main.qml:3:14: evaluation fault: text too long\n",
    ),
    (
        Told::Fault(EvalFault::ReadOnly),
        "Main.qml:3:14: evaluation fault: read only\n",
    ),
    (
        Told::Target("anchors.left"),
        "Main.qml:3:14: anchor target ignored: anchors.left\n",
    ),
    (
        Told::Center("anchors.horizontalCenter"),
        "Main.qml:3:14: center anchor ignored: anchors.horizontalCenter\n",
    ),
    (
        Told::Limit(LimitKind::Statements),
        "Main.qml:3:14: statement limit\n",
    ),
    (
        Told::Limit(LimitKind::Handlers),
        "Main.qml:3:14: handler limit\n",
    ),
    (
        Told::Limit(LimitKind::Objects),
        "Main.qml:3:14: object limit\n",
    ),
    (
        Told::Limit(LimitKind::Depth),
        "Main.qml:3:14: depth limit\n",
    ),
    (
        Told::Load(Refused::Missing),
        "Main.qml:3:14: load fault: A.qml: missing\n",
    ),
    (
        Told::Load(Refused::TooLong),
        "Main.qml:3:14: load fault: A.qml: too long\n",
    ),
    (
        Told::Load(Refused::TooMany),
        "Main.qml:3:14: load fault: too many documents\n",
    ),
    (
        Told::Load(Refused::Cycle),
        "Main.qml:3:14: load fault: A.qml: cycle\n",
    ),
    (
        Told::Load(Refused::Read),
        "Main.qml:3:14: load fault: read fault\n",
    ),
    (
        Told::Load(Refused::NoMemory),
        "Main.qml:3:14: load fault: no memory\n",
    ),
    (
        Told::Load(Refused::Doc(DocFault::NotUtf8 { at: 1048575 })),
        "Main.qml:3:14: load fault: A.qml: not UTF-8 at byte 1048575\n",
    ),
    (
        Told::Load(Refused::Doc(DocFault::BadToken { at: PLACE })),
        "Main.qml:3:14: load fault: A.qml:3:14: bad token\n",
    ),
    (
        Told::Load(Refused::Doc(DocFault::Syntax { at: PLACE })),
        "Main.qml:3:14: load fault: A.qml:3:14: syntax\n",
    ),
    (
        Told::Load(Refused::Doc(DocFault::TooDeep { at: PLACE })),
        "Main.qml:3:14: load fault: A.qml:3:14: too deep\n",
    ),
    (
        Told::Load(Refused::Doc(DocFault::Unsupported { at: PLACE })),
        "Main.qml:3:14: load fault: A.qml:3:14: unsupported\n",
    ),
    (
        Told::Load(Refused::Doc(DocFault::UnknownType { at: PLACE })),
        "Main.qml:3:14: load fault: A.qml:3:14: unknown type\n",
    ),
    (
        Told::Load(Refused::Doc(DocFault::UnknownProperty { at: PLACE })),
        "Main.qml:3:14: load fault: A.qml:3:14: unknown property\n",
    ),
    (
        Told::Load(Refused::Doc(DocFault::BadId { at: PLACE })),
        "Main.qml:3:14: load fault: A.qml:3:14: bad id\n",
    ),
    (
        Told::Load(Refused::Doc(DocFault::DuplicateId { at: PLACE })),
        "Main.qml:3:14: load fault: A.qml:3:14: duplicate id\n",
    ),
    (
        Told::Load(Refused::Doc(DocFault::DuplicateName { at: PLACE })),
        "Main.qml:3:14: load fault: A.qml:3:14: duplicate name\n",
    ),
    (
        Told::Load(Refused::Doc(DocFault::WrongLiteral { at: PLACE })),
        "Main.qml:3:14: load fault: A.qml:3:14: wrong literal\n",
    ),
    (
        Told::Load(Refused::Doc(DocFault::ReadOnly { at: PLACE })),
        "Main.qml:3:14: load fault: A.qml:3:14: read only\n",
    ),
    (Told::Run(RunNote::Polish), "polish loop\n"),
    (Told::Run(RunNote::Loader), "loader limit\n"),
    (Told::Run(RunNote::Wait), "wait limit\n"),
    (Told::Log("x is 3"), "qml: x is 3\n"),
    (Told::Log(""), "qml: \n"),
];

fn name(alloc: Global, text: &str) -> Result<Name, Fail> {
    if text.len() > 65536 {
        return Err(Fail::from("a long name"));
    }
    Ok(Name::new(alloc, text)?)
}

fn load_fault(alloc: Global, refused: Refused) -> Result<LoadFault, Fail> {
    let name = name(alloc, "A.qml")?;
    Ok(match refused {
        Refused::Missing => LoadFault::Missing { name },
        Refused::TooLong => LoadFault::TooLong { name },
        Refused::TooMany => LoadFault::TooMany,
        Refused::Cycle => LoadFault::Cycle { name },
        Refused::Doc(fault) => LoadFault::Doc { name, fault },
        Refused::Read => LoadFault::Read,
        Refused::NoMemory => LoadFault::NoMemory,
    })
}

fn add_load(alloc: Global, notes: &mut Notes, at: At<'_>, refused: Refused) -> Result<(), Fail> {
    let fault = load_fault(alloc, refused)?;
    Ok(notes.line(&Note::Load(at, &fault))?)
}

fn add_log(alloc: Global, notes: &mut Notes, text: &str) -> Result<(), Fail> {
    if text.len() > 65536 {
        return Err(Fail::from("a long text"));
    }
    let text = Text::new(alloc, text)?;
    Ok(notes.line(&Note::Log(&text))?)
}

/// Adds a note of `Main.qml`.
fn add(alloc: Global, notes: &mut Notes, file: &Name, told: Told) -> Result<(), Fail> {
    let at = At { file, span: PLACE };
    let note = match told {
        Told::Load(refused) => return add_load(alloc, notes, at, refused),
        Told::Log(text) => return add_log(alloc, notes, text),
        Told::Loop(path) => Note::Loop(at, path),
        Told::Fault(fault) => Note::Fault(at, fault),
        Told::Target(path) => Note::Target(at, path),
        Told::Center(path) => Note::Center(at, path),
        Told::Limit(kind) => Note::Limit(at, kind),
        Told::Run(kind) => Note::Run(kind),
    };
    Ok(notes.line(&note)?)
}

/// Whether a note is written so.
fn is_written(alloc: Global, file: &Name, told: Told, text: &str) -> Result<bool, Fail> {
    let mut notes = Notes::new(alloc);
    add(alloc, &mut notes, file, told)?;
    Ok(notes.as_slice() == text.as_bytes())
}

/// The text of the first note that is written otherwise.
fn first_wrong(alloc: Global) -> Result<Option<&'static str>, Fail> {
    let file = name(alloc, "Main.qml")?;
    for (told, text) in ROWS {
        if !is_written(alloc, &file, *told, text)? {
            return Ok(Some(*text));
        }
    }
    Ok(None)
}

#[test]
fn each_note_has_its_line(rt: HostRuntime) -> Result<(), Fail> {
    assert_eq!(rt; first_wrong(rt.alloc())?, None);
    Ok(())
}

/// Whether the lines of two notes are taken in order, and none is left.
fn are_taken(alloc: Global) -> Result<bool, Fail> {
    let mut notes = Notes::new(alloc);
    notes.line(&Note::Run(RunNote::Polish))?;
    notes.line(&Note::Run(RunNote::Wait))?;
    let taken = notes.take();
    Ok(taken.as_slice() == "polish loop\nwait limit\n".as_bytes() && notes.is_empty())
}

/// Whether what comes after notes were taken stands alone.
fn begins_again(alloc: Global) -> Result<bool, Fail> {
    let mut notes = Notes::new(alloc);
    notes.line(&Note::Run(RunNote::Polish))?;
    notes.take();
    notes.line(&Note::Run(RunNote::Loader))?;
    Ok(notes.len() == 13 && notes.take().as_slice() == "loader limit\n".as_bytes())
}

#[test]
fn what_is_taken_is_gone(rt: HostRuntime) -> Result<(), Fail> {
    let taken = are_taken(rt.alloc())?;
    let again = begins_again(rt.alloc())?;
    assert!(rt; taken && again);
    Ok(())
}
