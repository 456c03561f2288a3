//! `qmlstage MAIN SCRIPT`: replays a script on a QML document of the current folder and writes each
//! frame to standard output, as a binary pixmap. It ends with a status that says how the run went, and
//! a line on standard error where it was refused.
#![tactic(auto)]

use outside::{FolderFiles, WriterSink, write_whole};
use stage_run::{Status, Words, exit_of, run, status_line};
use std::io::ErrorKind;
use std::process::ExitCode;
use std::{env, io};

fn main(rt: HostRuntime) -> ExitCode {
    let status = match words_of(&rt) {
        Ok(words) => {
            let files = FolderFiles::new(&rt);
            let frames = WriterSink::new(rt.stdout());
            let notes = WriterSink::new(rt.stderr());
            run(rt.alloc(), &words, files, frames, notes).status
        }
        Err(status) => status,
    };
    tell(&rt, &status);
    ExitCode::from(exit_of(&status))
}

/// The words after the program's name. A word that is not UTF-8 is `Usage`.
fn words_of(rt: &HostRuntime) -> Result<Words, Status> {
    let mut words = Words::new(rt.alloc());
    match env::args(rt) {
        Ok(args) => {
            for word in args.skip(1) {
                words.push(rt.alloc(), word.as_str())?;
            }
        }
        Err(error) => {
            return Err(match error.kind() {
                ErrorKind::OutOfMemory => Status::NoMemory,
                _ => Status::Usage,
            });
        }
    }
    Ok(words)
}

/// Says on standard error how the run ended, as well as that can be said.
fn tell(rt: &HostRuntime, status: &Status) {
    if let Ok(line) = status_line(rt.alloc(), status) {
        let _ = write_whole(&mut WriterSink::new(rt.stderr()), line.as_slice());
    }
}
