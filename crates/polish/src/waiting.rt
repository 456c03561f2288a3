ghost use Rattle.std.specs.Prelude.{◌≡◌, [], ◌∷◌, IfOk, MatchOption};
ghost use Rattle.std.specs.List.{range_with_len};

use links::Links;
use std::alloc::{AllocError, Global};
use std::marker::Model;

/// The positioners that a round has yet to lay out, in order. Contracts see them, and how many
/// positioners there are.
#[derive(Drop)]
pub(crate) struct Waiting {
    links: Links,
    // The list that has them, each as the cell of its number.
    list: usize,
    count: usize,
}

impl Model for Waiting {
    ghost use Rattle.links.specs.Chains.{cells_in};
    ghost use Rattle.polish.specs.Waiting.{Positioners, IsWaiting};

    ghost Value = { Positioners };

    ghost view = { λ w. record {
      count = w.count;
      left = cells_in w.links.lists w.list;
    } };

    ghost invariant = { λ w. IsWaiting w.links w.list w.count };
}

impl Waiting {
    /// None that wait, of so many positioners. The only error is that memory ran out.
    pub(crate) fn new(alloc: Global, count: usize) -> Result<Waiting, AllocError>
        ensures { IfOk result (λ waiting. waiting ≡ record { count = count; left = [] }) }
    {
        let mut links = Links::new(alloc);
        links.reserve(count, 1)?;
        let list = links.add_list();
        for positioner in 0..count {
            let cell = links.add_cell();
            prove_eq!(cell, positioner);
        }
        Ok(Waiting { links, list, count })
    }

    /// Has all positioners wait.
    pub(crate) fn fill(&mut self)
        requires { self.old.left ≡ [] }
        ensures { self.new ≡ record self.old { left = range_with_len 0 self.old.count } }
    {
        for positioner in 0..self.count {
            self.links.push_back(self.list, positioner);
        }
    }

    /// The first that waits, which then does so no longer, or None where none is left.
    pub(crate) fn take_first(&mut self) -> Option<usize>
        ensures count { self.new.count ≡ self.old.count }
        ensures first { MatchOption result (self.old.left ≡ [])
            (λ first. self.old.left ≡ first ∷ self.new.left) }
        ensures none { result ≡ None → self.new ≡ self.old }
    {
        let first = self.links.first(self.list)?;
        self.links.unlink(first);
        Some(first)
    }
}
