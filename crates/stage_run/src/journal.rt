ghost use Rattle.std.specs.Prelude.{◌≡◌, ◌<◌, ◌↔◌, List, [], ◌∷◌, ◌++◌, length, slice_get, Some, IsTrue, OnOk, OnErr};

use std::alloc::{AllocError, Global};
use std::marker::Model;

/// One step of a run.
#[derive(Clone, Copy, Debug, PartialEq, Eq)]
pub enum Move {
    /// A command of the script was applied; its number counts from 1.
    Command(u32),
}

/// The moves of a run, in order.
#[derive(Debug, Drop)]
pub struct Journal {
    moves: Vec<Move>,
}

impl Model for Journal {
    ghost use Rattle.std.specs.Prelude.{List};
    ghost use Rattle.stage_run.specs.declared.journal.Move.{Move};

    ghost Value = { List Move };

    ghost view = { λ j. j.moves.items };
}

impl Journal {
    /// No moves.
    pub(crate) fn new(alloc: Global) -> Journal
        ensures { result ≡ [] }
    {
        Journal {
            moves: Vec::new(alloc),
        }
    }

    /// Adds a move at the end. After an error, which is that memory ran out, the journal is as before.
    pub(crate) fn push(&mut self, step: Move) -> Result<(), AllocError>
        ensures ok { OnOk result (self.new ≡ self.old ++ step ∷ []) }
        ensures err { OnErr result (self.new ≡ self.old) }
    {
        self.moves.push(step)?;
        Ok(())
    }

    /// How many moves there are.
    pub fn len(&self) -> usize
        ensures { result ≡ length self.now }
    {
        self.moves.len()
    }

    /// Whether nothing moved.
    pub fn is_empty(&self) -> bool
        ensures { IsTrue result ↔ (self.now ≡ []) }
    {
        self.moves.is_empty()
    }

    /// The move at an index from 0.
    pub fn at(&self, index: usize) -> &Move
        requires { index < length self.now }
        ensures { slice_get self.now index ≡ Some result.now }
    {
        &self.moves[index]
    }
}
