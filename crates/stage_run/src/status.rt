ghost use Rattle.std.specs.Prelude.{◌≡◌, ◌++◌, List, IfOk, codes, decimal};
ghost use Rattle.script_text.specs.LoadFaults.{load_fault_text};
ghost use Rattle.stage_run.specs.StatusLine.{line_of, exit_code};
ghost use Rattle.stage_run.specs.declared.status.Status.TheVariants as statuses;

use qml_ast::LoadFault;
use script_text::load_fault_text;
use std::alloc::{AllocError, Global};

/// How a run ended.
#[derive(Debug, Drop)]
pub enum Status {
    /// Every command was applied and every frame written.
    Done,
    /// The words are not a document and a script.
    Usage,
    /// The script has a bad line, counted from 1; 0 where the script is missing or too long.
    BadScript { line: u32 },
    /// The document has a fault.
    BadDocument { fault: LoadFault },
    /// A file could not be read.
    ReadFault,
    /// A frame could not be written whole.
    WriteFault,
    /// Memory ran out.
    NoMemory,
}

impl From<AllocError> for Status {
    ghost from_gives = { λ _ status. status ≡ statuses.NoMemory };

    fn from(_error: AllocError) -> Status {
        Status::NoMemory
    }
}

/// The line that says how the run ended, with its LF: bytes for standard error, none at `Done`.
pub fn status_line(alloc: Global, status: &Status) -> Result<Vec<u8>, AllocError>
    ensures { IfOk result (λ line. line.items ≡ line_of status.now) }
{
    match status {
        Status::Done => Ok(Vec::new(alloc)),
        Status::Usage => bytes_of(
            alloc,
            "qmlstage: usage: qmlstage MAIN SCRIPT [--size=WxH] [--schedule=LETTERS] [--stats]\n",
        ),
        Status::BadScript { line } => Ok(format!(in alloc;
            "qmlstage: bad script, line {line}\n"
        )?.into_bytes()),
        Status::BadDocument { fault } => refusal(alloc, fault),
        Status::ReadFault => bytes_of(alloc, "qmlstage: read fault\n"),
        Status::WriteFault => bytes_of(alloc, "qmlstage: write fault\n"),
        Status::NoMemory => bytes_of(alloc, "qmlstage: no memory\n"),
    }
}

/// A text as bytes.
fn bytes_of(alloc: Global, text: &str) -> Result<Vec<u8>, AllocError>
    ensures { IfOk result (λ bytes. bytes.items ≡ text.now) }
{
    Vec::from_slice(alloc, text.as_bytes())
}

/// The line for a document that is refused.
fn refusal(alloc: Global, fault: &LoadFault) -> Result<Vec<u8>, AllocError>
    ensures { IfOk result (λ line. line.items ≡ codes "qmlstage: " ++ load_fault_text fault.now) }
{
    let fault = load_fault_text(alloc, fault)?;
    Ok(format!(in alloc; "qmlstage: {}", fault.as_str())?.into_bytes())
}

/// The exit status of the process: 0 at `Done`, else 2 to 7 in the order of the statuses.
pub fn exit_of(status: &Status) -> u8
    ensures { result ≡ exit_code status.now }
{
    match status {
        Status::Done => 0,
        Status::Usage => 2,
        Status::BadScript { .. } => 3,
        Status::BadDocument { .. } => 4,
        Status::ReadFault => 5,
        Status::WriteFault => 6,
        Status::NoMemory => 7,
    }
}
