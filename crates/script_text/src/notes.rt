ghost use Rattle.std.specs.Prelude.{◌≡◌, ◌++◌, ◌==◌, [], length, OnOk, OnErr};
ghost use Rattle.script_text.specs.Notes.{note_text};

use crate::note::{Note, note_text};
use std::alloc::{AllocError, Global};
use std::marker::Model;
use std::mem;

/// The notes that wait to be written, line after line. Contracts see their bytes.
#[derive(Drop)]
pub struct Notes {
    alloc: Global,
    bytes: Vec<u8>,
}

impl Model for Notes {
    ghost use Rattle.std.specs.Prelude.{ℕ, List};

    ghost Value = { List ℕ };

    ghost view = { λ notes. notes.bytes.items };
}

impl Notes {
    /// No note yet. It takes no memory.
    pub fn new(alloc: Global) -> Notes
        ensures { result ≡ [] }
    {
        Notes {
            alloc,
            bytes: Vec::new(alloc),
        }
    }

    /// Puts a note's line at the end.
    ///
    /// # Errors
    ///
    /// `AllocError` if memory runs out. The notes are as before then.
    pub fn line(&mut self, note: &Note<'_>) -> Result<(), AllocError>
        ensures ok { OnOk result (self.new ≡ self.old ++ note_text note.now) }
        ensures err { OnErr result (self.new ≡ self.old) }
    {
        let text = note_text(self.alloc, note)?;
        self.bytes.extend_from_slice(text.as_bytes())
    }

    /// Gives the bytes of all notes, and leaves none. It takes no memory.
    pub fn take(&mut self) -> Vec<u8>
        ensures taken { result.items ≡ self.old }
        ensures left { self.new ≡ [] }
    {
        mem::replace(&mut self.bytes, Vec::new(self.alloc))
    }

    /// The bytes of all notes.
    pub fn as_slice(&self) -> &[u8]
        ensures { result.now ≡ self.now }
    {
        self.bytes.as_slice()
    }

    /// How many bytes the notes have.
    pub fn len(&self) -> usize
        ensures { result ≡ length self.now }
    {
        self.bytes.len()
    }

    /// Whether there is no note.
    pub fn is_empty(&self) -> bool
        ensures { result ≡ (length self.now == 0) }
    {
        self.len() == 0
    }
}
