ghost use Rattle.std.specs.Prelude.{◌≡◌, ◌≢◌, ◌<◌, ◌≤◌, ◌↔◌, [], length, None, IfSome, vec_len};
ghost use Rattle.std.specs.IoError.{error_kind};
ghost use Rattle.outside.specs.Count.{next_count, Rose};
ghost use Rattle.outside.specs.Store.{Answers};

use crate::files::{Fetch, Files};
use std::io::{Error, ErrorKind, Read};
use std::marker::Model;
use std::{fs, rt};

// The most bytes that one read asks for.
const CHUNK: usize = 4096;

/// The files of the current folder, by the system. It tells nothing of them.
///
/// Contracts see it as the number of its reads that failed.
#[derive(Drop)]
pub struct FolderFiles<'a, R> {
    rt: &'a R,
    faults: u64,
}

impl<'a, R> Model for FolderFiles<'a, R> {
    ghost use Rattle.std.specs.Prelude.{ℕ};

    ghost Value = { ℕ };

    ghost view = { λ f. f.faults };
}

impl<'a, R> FolderFiles<'a, R> {
    /// The files of the current folder, of which no read has failed.
    pub fn new(rt: &'a R) -> FolderFiles<'a, R>
        ensures { result ≡ 0 }
    {
        FolderFiles { rt, faults: 0 }
    }

    // The answer for an error. That a file is not there is no fault.
    fn refuse(&mut self, error: Error) -> Fetch
        ensures found { result ≢ Fetch.Found }
        ensures missing { (result ≡ Fetch.Missing) ↔ (error_kind error ≡ ErrorKind.NotFound) }
        ensures failed { result ≡ Fetch.Failed → self.new ≡ next_count self.old }
        ensures others { result ≢ Fetch.Failed → self.new ≡ self.old }
        ensures later { self.old ≤ self.new }
    {
        if error.kind() == ErrorKind::NotFound {
            return Fetch::Missing;
        }
        self.faults = self.faults.saturating_add(1);
        Fetch::Failed
    }
}

// How reading a file ended.
enum Reading {
    Whole,
    TooLong,
    Failed(Error),
    NoMemory,
}

// Reads what is left of the file into `out`, in turns that each take a byte or more.
fn read_rest<F: Read>(file: &mut F, limit: usize, out: &mut Vec<u8>) -> Reading
    requires { out.old.items ≡ [] }
    ensures within { vec_len out.new ≤ limit }

    // Where the reader tells the bytes that it has left.
    ensures whole { result ≡ Reading.Whole →
        IfSome (F.remaining file.old) (λ bytes. out.new.items ≡ bytes) }
    ensures too_long { result ≡ Reading.TooLong →
        IfSome (F.remaining file.old) (λ bytes. limit < length bytes) }
{
    let mut chunk = [0u8; CHUNK];
    loop {
        // One byte more than may still come shows that the file is too long.
        let asked = (limit - out.len()).min(CHUNK - 1) + 1;
        let got = match file.read(&mut chunk[..asked]) {
            Ok(0) => return Reading::Whole,
            Ok(got) => got,
            Err(error) => return Reading::Failed(error),
        };
        if got > limit - out.len() {
            return Reading::TooLong;
        }
        if out.extend_from_slice(&chunk[..got]).is_err() {
            return Reading::NoMemory;
        }
    }
}

impl<R: rt::Files> Files for FolderFiles<'_, R> {
    ghost use Rattle.std.specs.Prelude.{None};

    ghost held = { λ _. None };

    ghost faults = { λ f. f };

    /// Reads at most `limit + 1` bytes of the file, in at most `limit + 1` turns. Each error of the
    /// system is a failure, but for one: that a file is not there is the answer `Missing`.
    fn fetch(&mut self, name: &str, limit: usize, out: &mut Vec<u8>) -> Fetch
        // What every store keeps.
        ensures answer { Answers None name.now limit out.new.items result }
        ensures later { self.old ≤ self.new }
        ensures failed { result ≡ Fetch.Failed → Rose self.old self.new }

        // It counts its failures and no others.
        ensures counted { result ≡ Fetch.Failed → self.new ≡ next_count self.old }
        ensures others { result ≢ Fetch.Failed → self.new ≡ self.old }
    {
        out.clear();
        let reading = match fs::open(self.rt, name) {
            Ok(mut file) => read_rest(&mut file, limit, out),
            Err(error) => Reading::Failed(error),
        };
        let answer = match reading {
            Reading::Whole => return Fetch::Found,
            Reading::TooLong => Fetch::TooLong,
            Reading::Failed(error) => self.refuse(error),
            Reading::NoMemory => Fetch::NoMemory,
        };
        out.clear();
        answer
    }
}
