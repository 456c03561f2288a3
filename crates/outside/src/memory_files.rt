ghost use Rattle.std.specs.Prelude.{◌≡◌, ◌≢◌, ◌≤◌, Some, OnOk, OnErr};
ghost use Rattle.std.specs.FinMap as files_by_name;
ghost use Rattle.std.specs.FinSet as call_numbers;
ghost use Rattle.std.specs.Option.{option_copied};
ghost use Rattle.outside.specs.Count.{Rose};
ghost use Rattle.outside.specs.Store.{Answers};
ghost use Rattle.outside.specs.FilesInMemory.{store_of, call_set_of, fails_next, next_answer, after_fetch};

use crate::files::{Fetch, Files};
use std::alloc::{AllocError, Global};
use std::collections::VecDeque;
use std::marker::Model;

#[derive(Drop)]
struct MemoryFile {
    name: String,
    bytes: Vec<u8>,
}

/// Files in memory that tell what they are, of which chosen fetches fail.
#[derive(Drop)]
pub struct MemFiles {
    alloc: Global,
    // The newest first, so that a search finds it before those of its name that it replaces.
    files: VecDeque<MemoryFile>,
    failing: Vec<u64>,
    calls: u64,
    faults: u64,
}

impl Model for MemFiles {
    ghost use Rattle.outside.specs.FilesInMemory.{MemoryFiles, memory_files_code, store_of, call_set_of};

    ghost Value = { MemoryFiles };

    ghost coded = { memory_files_code };

    ghost view = { λ m. record {
      files = store_of m.files.items;
      failing = call_set_of m.failing.items;
      calls = m.calls;
      faults = m.faults;
    } };
}

impl MemFiles {
    /// No files, and no fetch that fails.
    pub fn new(alloc: Global) -> MemFiles
        ensures { result ≡ record {
          files = files_by_name.empty;
          failing = call_numbers.empty;
          calls = 0;
          faults = 0;
        } }
    {
        MemFiles {
            alloc,
            files: VecDeque::new(alloc),
            failing: Vec::new(alloc),
            calls: 0,
            faults: 0,
        }
    }

    /// Adds the file `name` with these bytes, in place of an earlier one of that name. The only error
    /// is that memory ran out, and then nothing has changed.
    pub fn add(&mut self, name: &str, bytes: &[u8]) -> Result<(), AllocError>
        ensures ok { OnOk result (self.new ≡ record self.old {
          files = files_by_name.insert self.old.files name.now bytes.now;
        }) }
        ensures err { OnErr result (self.new ≡ self.old) }
    {
        let file = MemoryFile {
            name: String::from_str(self.alloc, name)?,
            bytes: Vec::from_slice(self.alloc, bytes)?,
        };
        self.files.push_front(file)?;
        Ok(())
    }

    /// Makes the fetch of that number fail, where the first fetch is number 1. The only error is that
    /// memory ran out, and then nothing has changed.
    pub fn fail(&mut self, call: u64) -> Result<(), AllocError>
        ensures ok { OnOk result (self.new ≡ record self.old {
          failing = call_numbers.insert self.old.failing call;
        }) }
        ensures err { OnErr result (self.new ≡ self.old) }
    {
        self.failing.push(call)?;
        Ok(())
    }

    // Counts a fetch, and says whether it is one that fails.
    fn count_fetch(&mut self) -> bool
        ensures fails { result ≡ fails_next self.old }
        ensures after { self.new ≡ after_fetch self.old }
        ensures later { self.old.faults ≤ self.new.faults }
    {
        self.calls = self.calls.saturating_add(1);
        let fails = is_among(&self.failing, self.calls);
        if fails {
            self.faults = self.faults.saturating_add(1);
        }
        fails
    }
}

// The call is one of these.
fn is_among(calls: &Vec<u64>, call: u64) -> bool
    ensures { result ≡ call_numbers.contains (call_set_of calls.now.items) call }
{
    calls.contains(&call)
}

// The bytes of the newest file of that name.
fn newest<'a>(files: &'a VecDeque<MemoryFile>, name: &str) -> Option<&'a [u8]>
    ensures { option_copied result ≡ files_by_name.get (store_of files.now.items) name.now }
{
    for file in files {
        if name == file.name.as_str() {
            return Some(file.bytes.as_slice());
        }
    }
    None
}

impl Files for MemFiles {
    ghost use Rattle.std.specs.Prelude.{Some};

    ghost held = { λ m. Some m.files };

    ghost faults = { λ m. m.faults };

    /// Fails where the number of the fetch is one that fails, and nowhere else. The number stands
    /// still at 2^64 - 1.
    fn fetch(&mut self, name: &str, limit: usize, out: &mut Vec<u8>) -> Fetch
        // What every store keeps.
        ensures held { self.new.files ≡ self.old.files }
        ensures answer { Answers (Some self.old.files) name.now limit out.new.items result }
        ensures later { self.old.faults ≤ self.new.faults }
        ensures failed { result ≡ Fetch.Failed → Rose self.old.faults self.new.faults }

        // Exactly what this one does. Where memory runs out it would have found the file.
        ensures exact { result ≢ Fetch.NoMemory → result ≡ next_answer self.old name.now limit }
        ensures no_memory { result ≡ Fetch.NoMemory →
            next_answer self.old name.now limit ≡ Fetch.Found }
        ensures after { self.new ≡ after_fetch self.old }
    {
        out.clear();
        if self.count_fetch() {
            return Fetch::Failed;
        }
        let Some(bytes) = newest(&self.files, name) else {
            return Fetch::Missing;
        };
        if bytes.len() > limit {
            return Fetch::TooLong;
        }
        match out.extend_from_slice(bytes) {
            Ok(()) => Fetch::Found,
            Err(_) => Fetch::NoMemory,
        }
    }
}
