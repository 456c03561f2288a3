ghost use Rattle.std.specs.Prelude.{◌≡◌, ◌++◌, IfOk, codes, string_bytes};
ghost use Rattle.script_text.specs.Notes.{at_text, fault_word, limit_words, run_text, note_text};

use crate::load_text::load_fault_text;
use qml_ast::{At, EvalFault, LoadFault, Text};
use std::alloc::{AllocError, Global};

/// A limit that is reached at a place of a document.
#[derive(Clone, Copy)]
pub enum LimitKind {
    /// The statements of one move.
    Statements,
    /// Handlers within handlers.
    Handlers,
    /// The objects that live at one time.
    Objects,
    /// Objects within objects.
    Depth,
}

/// What is noted of the run as a whole.
#[derive(Clone, Copy)]
pub enum RunNote {
    /// The layout still changes after its last round.
    Polish,
    /// The Loaders still differ after their last round.
    Loader,
    /// A load was waited for as often as it may be.
    Wait,
}

/// Something that a run tells in one line.
#[derive(Clone, Copy)]
pub enum Note<'a> {
    /// A binding of the property of that path leads to its own evaluation.
    Loop(At<'a>, &'a str),
    /// An expression or a statement has no value.
    Fault(At<'a>, EvalFault),
    /// The anchor of that path has no lawful target.
    Target(At<'a>, &'a str),
    /// The anchor of that path is the third one in its direction.
    Center(At<'a>, &'a str),
    /// A limit is reached.
    Limit(At<'a>, LimitKind),
    /// The Loader there has no document.
    Load(At<'a>, &'a LoadFault),
    /// Something of the run as a whole.
    Run(RunNote),
    /// What a handler logs.
    Log(&'a Text),
}

// A note's line, with its LF.
pub(crate) fn note_text(alloc: Global, note: &Note<'_>) -> Result<String, AllocError>
    ensures { IfOk result (λ text. string_bytes text ≡ note_text note.now) }
{
    match *note {
        Note::Loop(at, path) => told(
            alloc,
            at,
            "Binding loop detected for property \"",
            path,
            "\"\n",
        ),
        Note::Fault(at, fault) => told(alloc, at, "evaluation fault: ", fault_word(fault), "\n"),
        Note::Target(at, path) => told(alloc, at, "anchor target ignored: ", path, "\n"),
        Note::Center(at, path) => told(alloc, at, "center anchor ignored: ", path, "\n"),
        Note::Limit(at, kind) => told(alloc, at, "", limit_words(kind), ""),
        Note::Load(at, fault) => {
            let fault = load_fault_text(alloc, fault)?;
            told(alloc, at, "load fault: ", fault.as_str(), "")
        }
        Note::Run(kind) => String::from_str(alloc, run_text(kind)),
        Note::Log(text) => format!(in alloc; "qml: {}\n", text.as_str()),
    }
}

// What is told of a place, with what stands before it and behind it.
fn told(
    alloc: Global,
    at: At<'_>,
    before: &str,
    what: &str,
    behind: &str,
) -> Result<String, AllocError>
    ensures { IfOk result (λ text. string_bytes text ≡ at_text at.entry.file.now at.entry.span (before.now ++ (what.now ++ behind.now))) }
{
    format!(in alloc;
        "{}:{}:{}: {before}{what}{behind}",
        at.file.as_str(),
        at.span.line,
        at.span.col
    )
}

fn fault_word(fault: EvalFault) -> &'static str
    ensures { result.now ≡ fault_word fault }
{
    match fault {
        EvalFault::Overflow => "overflow",
        EvalFault::ZeroDivisor => "zero divisor",
        EvalFault::WrongKind => "wrong kind",
        EvalFault::UnknownName => "unknown name",
        EvalFault::NullMember => "member of null",
        EvalFault::TooMuch => "too much",
        EvalFault::TextTooLong => "text too long",
        EvalFault::ReadOnly => "read only",
        EvalFault::NoMemory => "no memory",
    }
}

fn limit_words(kind: LimitKind) -> &'static str
    ensures { result.now ≡ limit_words kind }
{
    match kind {
        LimitKind::Statements => "statement limit\n",
        LimitKind::Handlers => "handler limit\n",
        LimitKind::Objects => "object limit\n",
        LimitKind::Depth => "depth limit\n",
    }
}

fn run_text(kind: RunNote) -> &'static str
    ensures { result.now ≡ run_text kind }
{
    match kind {
        RunNote::Polish => "polish loop\n",
        RunNote::Loader => "loader limit\n",
        RunNote::Wait => "wait limit\n",
    }
}
