use outside::{MemFiles, MemSink};
use stage_run::{Outcome, Words, exit_of, run, status_line};
use std::alloc::{AllocError, Global};

/// A document of two red pixels.
pub const RED: &str = r##"Rectangle { width: 2; height: 1; color: "#ff0000" }"##;

/// How many bytes an image of 640 by 480 pixels has.
pub const IMAGE: usize = 921_615;

/// What a run is given: its words, its files, the number of the fetch that fails (0: none), and how
/// many bytes the frames' sink has room for.
#[derive(Clone, Copy)]
pub struct Given<'a> {
    pub words: &'a [&'a str],
    pub files: &'a [(&'a str, &'a str)],
    pub failing: u64,
    pub room: usize,
}

/// How a run is to end: its line and exit status, the moves of its journal and the bytes of its frames.
#[derive(Clone, Copy)]
pub struct Ending<'a> {
    pub line: &'a str,
    pub exit: u8,
    pub moves: usize,
    pub bytes: usize,
}

/// The outcome of a run whose notes have as much room as they need.
pub fn outcome_of(
    alloc: Global,
    given: &Given<'_>,
) -> Result<Outcome<MemFiles, MemSink, MemSink>, AllocError> {
    outcome_within(alloc, given, 4096)
}

/// The outcome of a run whose notes have room for so many bytes.
pub fn outcome_within(
    alloc: Global,
    given: &Given<'_>,
    notes_room: usize,
) -> Result<Outcome<MemFiles, MemSink, MemSink>, AllocError> {
    let mut files = MemFiles::new(alloc);
    for (name, text) in given.files {
        files.add(name, text.as_bytes())?;
    }
    if given.failing > 0 {
        files.fail(given.failing)?;
    }
    let mut words = Words::new(alloc);
    for word in given.words {
        words.push(alloc, word)?;
    }
    let frames = MemSink::new(alloc, 7, given.room)?;
    let notes = MemSink::new(alloc, 7, notes_room)?;
    Ok(run(alloc, &words, files, frames, notes))
}

/// Whether the run ends so, without notes.
pub fn ends(alloc: Global, given: &Given<'_>, wanted: &Ending<'_>) -> Result<bool, AllocError> {
    let outcome = outcome_of(alloc, given)?;
    let line = status_line(alloc, &outcome.status)?;
    let is_told = line.as_slice() == wanted.line.as_bytes()
        && exit_of(&outcome.status) == wanted.exit;
    let is_written = outcome.journal.len() == wanted.moves
        && outcome.frames.contents().len() == wanted.bytes
        && outcome.notes.contents().is_empty();
    Ok(is_told && is_written)
}

/// Whether the run over a document and a script of these texts is refused with this line and exit status.
pub fn is_refused(
    alloc: Global,
    document: &str,
    script: &str,
    line: &str,
    exit: u8,
) -> Result<bool, AllocError> {
    let given = Given {
        words: &["Main.qml", "script.txt"],
        files: &[("Main.qml", document), ("script.txt", script)],
        failing: 0,
        room: 0,
    };
    let ending = Ending {
        line,
        exit,
        moves: 0,
        bytes: 0,
    };
    ends(alloc, &given, &ending)
}

/// One line of text, so many times.
pub fn repeated(alloc: Global, line: &str, times: usize) -> Result<String, AllocError> {
    let mut text = String::new(alloc);
    for _ in 0..times {
        text.push_str(line)?;
    }
    Ok(text)
}
