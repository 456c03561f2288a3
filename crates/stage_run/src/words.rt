ghost use Rattle.std.specs.Prelude.{◌≡◌, ℕ, ◌<◌, ◌↔◌, List, [], ◌∷◌, ◌++◌, length, slice_index_or, IsTrue, OnOk, OnErr};
ghost use Rattle.stage_run.specs.Words.{IsPlainName, IsMainName, IsScriptName, AreLawful};

use std::alloc::{AllocError, Global};
use std::marker::Model;

/// The words that follow the program's name, in order.
#[derive(Debug, Drop)]
pub struct Words {
    words: Vec<String>,
}

impl Model for Words {
    ghost use Rattle.std.specs.Prelude.{ℕ, List, map, string_bytes};

    ghost Value = { List (List ℕ) };

    ghost view = { λ w. map string_bytes w.words.items };
}

impl Words {
    /// No words.
    pub fn new(alloc: Global) -> Words
        ensures { result ≡ [] }
    {
        Words {
            words: Vec::new(alloc),
        }
    }

    /// Adds a word at the end.
    pub fn push(&mut self, alloc: Global, word: &str) -> Result<(), AllocError>
        ensures ok { OnOk result (self.new ≡ self.old ++ word.now ∷ []) }
        ensures err { OnErr result (self.new ≡ self.old) }
    {
        let word = String::from_str(alloc, word)?;
        self.words.push(word)?;
        Ok(())
    }

    /// How many words there are.
    pub fn len(&self) -> usize
        ensures { result ≡ length self.now }
    {
        self.words.len()
    }

    /// Whether there is no word.
    pub fn is_empty(&self) -> bool
        ensures { IsTrue result ↔ (self.now ≡ []) }
    {
        self.words.is_empty()
    }

    /// The word at an index from 0.
    pub fn at(&self, index: usize) -> &str
        requires { index < length self.now }
        ensures { result.now ≡ slice_index_or self.now index [] }
    {
        self.words[index].as_str()
    }

    /// Whether the words name a document and a script, and nothing else.
    pub(crate) fn are_lawful(&self) -> bool
        ensures { IsTrue result ↔ AreLawful self.now }
    {
        self.len() == 2
            && is_main_name(self.at(0).as_bytes())
            && is_script_name(self.at(1).as_bytes())
    }
}

/// Whether it names a file of the folder itself.
fn is_plain_name(name: &[u8]) -> bool
    ensures { IsTrue result ↔ IsPlainName name.now }
{
    name.first() != Some(&b'-') && name.iter().all(|byte| *byte != b'/' && *byte != 0)
}

/// Whether it names a document's file.
fn is_main_name(name: &[u8]) -> bool
    ensures { IsTrue result ↔ IsMainName name.now }
{
    name.len() <= 255 && 4 < name.len() && name.ends_with(b".qml") && is_plain_name(name)
}

/// Whether it names a script's file.
fn is_script_name(name: &[u8]) -> bool
    ensures { IsTrue result ↔ IsScriptName name.now }
{
    !name.is_empty() && name.len() <= 255 && is_plain_name(name)
}
