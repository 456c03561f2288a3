ghost use Rattle.std.specs.Prelude.{◌≡◌, ◌≤◌, [], OnOk, IfErr};
ghost use Rattle.outside.specs.Store.{Store};
ghost use Rattle.stage_run.specs.Causes.{Ends, HasCause, IsDoneOrNoMemory, IsSound, run_of};
ghost use Rattle.stage_run.specs.Words.{AreLawful};
ghost use Rattle.stage_run.specs.declared.status.Status.TheVariants as statuses;

use crate::frames::write_frames;
use crate::journal::Journal;
use crate::picture::{Opening, main_opening};
use crate::sources::fetch_script;
use crate::status::Status;
use crate::telling::write_notes;
use crate::words::Words;
use outside::{Files, Sink};
use std::alloc::Global;

/// How a run ended, and what it gives back.
#[derive(Drop)]
pub struct Outcome<F, S, N> {
    pub status: Status,
    pub files: F,
    pub frames: S,
    pub notes: N,
    pub journal: Journal,
}

/// Runs the script of the words on their document: for each `frame` line of the script one image of
/// 640 by 480 pixels goes to `frames`, as a binary pixmap (Netpbm P6). What the document's start tells goes to
/// `notes` before that, line by line: loops and faults of bindings and of handlers, limits that were met, and
/// what handlers log.
///
/// The first of these that fails gives the status: the words; the fetch of the script, of at most 4 MiB;
/// its lines; the load of the document with all documents that it mentions; the first of their places that
/// isn't run yet; the write of the notes; each frame's write. `NoMemory` may stand in place of any but `Usage`. The counts of failed
/// reads and writes never fall.
pub fn run<F: Files, S: Sink, N: Sink>(
    alloc: Global,
    words: &Words,
    files: F,
    frames: S,
    notes: N,
) -> Outcome<F, S, N>
    ensures files { F.held result.files ≡ F.held files }
    ensures reads { F.faults files ≤ F.faults result.files }
    ensures writes { S.faults frames ≤ S.faults result.frames }
    ensures notings { N.faults notes ≤ N.faults result.notes }
    ensures cause { HasCause (run_of words.now (F.held files)
        (F.faults files, F.faults result.files) (S.faults frames, S.faults result.frames) (N.faults notes, N.faults result.notes)
        (S.contents frames, S.contents result.frames) (N.contents notes, N.contents result.notes) result.journal) result.status }
    ensures usage { (AreLawful words.now → ⊥) → result.status ≡ statuses.Usage }
    ensures complete { (told : Store) → IsSound (run_of words.now (F.held files)
        (F.faults files, F.faults result.files) (S.faults frames, S.faults result.frames) (N.faults notes, N.faults result.notes)
        (S.contents frames, S.contents result.frames) (N.contents notes, N.contents result.notes) result.journal) told
        → IsDoneOrNoMemory result.status }
{
    let mut files = files;
    let mut frames = frames;
    let mut notes = notes;
    let mut journal = Journal::new(alloc);
    let status = play(
        alloc,
        words,
        &mut files,
        &mut frames,
        &mut notes,
        &mut journal,
    );
    Outcome {
        status,
        files,
        frames,
        notes,
        journal,
    }
}

/// The run over a journal that is empty.
fn play<F: Files, S: Sink, N: Sink>(
    alloc: Global,
    words: &Words,
    files: &mut F,
    frames: &mut S,
    notes: &mut N,
    journal: &mut Journal,
) -> Status
    requires { journal.old ≡ [] }
    ensures files { F.held files.new ≡ F.held files.old }
    ensures reads { F.faults files.old ≤ F.faults files.new }
    ensures writes { S.faults frames.old ≤ S.faults frames.new }
    ensures notings { N.faults notes.old ≤ N.faults notes.new }
    ensures cause { HasCause (run_of words.now (F.held files.old)
        (F.faults files.old, F.faults files.new) (S.faults frames.old, S.faults frames.new) (N.faults notes.old, N.faults notes.new)
        (S.contents frames.old, S.contents frames.new) (N.contents notes.old, N.contents notes.new) journal.new) result }
{
    if !words.are_lawful() {
        return Status::Usage;
    }
    match perform(alloc, words, files, frames, notes, journal) {
        Ok(()) => Status::Done,
        Err(status) => status,
    }
}

/// The run after lawful words.
fn perform<F: Files, S: Sink, N: Sink>(
    alloc: Global,
    words: &Words,
    files: &mut F,
    frames: &mut S,
    notes: &mut N,
    journal: &mut Journal,
) -> Result<(), Status>
    requires lawful { AreLawful words.now }
    requires empty { journal.old ≡ [] }
    ensures files { F.held files.new ≡ F.held files.old }
    ensures reads { F.faults files.old ≤ F.faults files.new }
    ensures writes { S.faults frames.old ≤ S.faults frames.new }
    ensures notings { N.faults notes.old ≤ N.faults notes.new }
    ensures done { OnOk result (Ends (run_of words.now (F.held files.old)
        (F.faults files.old, F.faults files.new) (S.faults frames.old, S.faults frames.new) (N.faults notes.old, N.faults notes.new)
        (S.contents frames.old, S.contents frames.new) (N.contents notes.old, N.contents notes.new) journal.new) statuses.Done) }
    ensures ended { IfErr result (Ends (run_of words.now (F.held files.old)
        (F.faults files.old, F.faults files.new) (S.faults frames.old, S.faults frames.new) (N.faults notes.old, N.faults notes.new)
        (S.contents frames.old, S.contents frames.new) (N.contents notes.old, N.contents notes.new) journal.new)) }
{
    let count = fetch_script(alloc, files, words.at(1))?;
    let Opening {
        canvas,
        notes: told,
    } = main_opening(alloc, files, words.at(0))?;
    write_notes(told.as_slice(), notes)?;
    write_frames(&canvas, count, journal, frames)
}
