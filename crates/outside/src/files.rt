ghost use Rattle.std.specs.Prelude.{◌≡◌, ℕ, ◌≤◌, List, Option};
ghost use Rattle.outside.specs.Count.{Rose};
ghost use Rattle.outside.specs.Store.{Store, Answers};

use std::alloc::Global;

/// How a fetch of a file went.
#[derive(Clone, Copy, PartialEq, Eq)]
pub enum Fetch {
    /// The buffer has the whole file.
    Found,
    /// There is no file of that name.
    Missing,
    /// The file has more bytes than the limit.
    TooLong,
    /// The file could not be read.
    Failed,
    /// Memory ran out.
    NoMemory,
}

/// A store of files by name.
pub trait Files {
    /// The files by name, where the store tells them.
    ghost held: { Self → Option Store };

    /// How many reads have failed; it stands still at 2^64 - 1.
    ghost faults: { Self → ℕ };

    /// Reads the file `name` of at most `limit` bytes into `out`, in place of what `out` had. After
    /// every answer but `Found`, `out` is empty.
    fn fetch(&mut self, name: &str, limit: usize, out: &mut Vec<u8>) -> Fetch
        ensures held { held self.new ≡ held self.old }
        ensures answer { Answers (held self.old) name.now limit out.new.items result }
        ensures later { faults self.old ≤ faults self.new }
        ensures failed { result ≡ Fetch.Failed → Rose (faults self.old) (faults self.new) };
}
