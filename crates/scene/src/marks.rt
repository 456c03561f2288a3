ghost use Rattle.std.specs.Prelude.{◌≡◌, ◌≢◌, ℕ, ◌==◌, ◌+◌, ◌<◌, ◌≤◌, if◌then◌else◌, [], Some, None, IsSome, IfOk, IfSome, OnErr, length, slice_get, vec_len, vec_capacity};
ghost use Rattle.links.specs.Slots.{placed, IsApart};
ghost use Rattle.links.specs.Chains.{StandsAt, IsLoose, AreDisjoint};
ghost use Rattle.scene.specs.Dirty.{marked, without};
ghost use Rattle.scene.specs.Marking.{owner, IsLoosened};

use links::Links;
use std::alloc::{AllocError, Global};
use std::marker::Model;

/// Which items are dirty, in the order in which they were marked. Each item has a cell of its own, for
/// which it is asked. Contracts see what item has a cell, and the dirty items.
#[derive(Drop)]
pub(crate) struct Marks {
    links: Links,
    // The list that has the cells of the dirty items.
    list: usize,
    // By its cell the item's serial.
    serials: Vec<u64>,
}

impl Model for Marks {
    ghost use Rattle.links.specs.Chains.{cells_in};
    ghost use Rattle.scene.specs.Marking.{Marking, dirty_in, IsMarking};

    ghost Value = { Marking };

    ghost view = { λ m. record {
      used = m.links.cells;
      serials = m.serials.items;
      dirty = dirty_in m.serials.items (cells_in m.links.lists m.list);
    } };

    ghost invariant = { λ m. IsMarking m.links m.list m.serials.items };
}

/// Puts a serial over that of the cell, or at the end, where there is room for one more.
fn put_serial(serials: &mut Vec<u64>, cell: usize, serial: u64)
    requires within { cell ≤ vec_len serials.old }
    requires room { vec_len serials.old + 1 ≤ vec_capacity serials.old }
    ensures { serials.new.items ≡ placed serials.old.items cell serial }
{
    if cell < serials.len() {
        serials[cell] = serial;
    } else {
        serials.push_reserved(serial);
    }
}

/// Takes a cell out of the list that has it, if one does.
fn loosen(links: &mut Links, cell: usize)
    ensures after { IsLoosened links.old links.new cell }
    ensures loose { IsLoose links.new cell }
    ensures disjoint { AreDisjoint links.new }
{
    if links.is_linked(cell) {
        links.unlink(cell);
    }
}

impl Marks {
    /// No item. The only error is that memory ran out.
    pub(crate) fn new(alloc: Global) -> Result<Marks, AllocError>
        ensures { IfOk result (λ marks. marks ≡ record { used = []; serials = []; dirty = [] }) }
    {
        let mut links = Links::new(alloc);
        links.reserve(0, 1)?;
        let list = links.add_list();
        Ok(Marks {
            links,
            list,
            serials: Vec::new(alloc),
        })
    }

    /// A cell for one more item, which isn't dirty. The only error is that memory ran out.
    pub(crate) fn add(&mut self, serial: u64) -> Result<usize, AllocError>
        requires { (cell : ℕ) → owner self.old cell ≢ Some serial }
        ensures owner { IfOk result (λ cell. (other : ℕ) →
            owner self.new other ≡ (if other == cell then Some serial else owner self.old other)) }
        ensures vacant { IfOk result (λ cell. owner self.old cell ≡ None) }
        ensures dirty { self.new.dirty ≡ self.old.dirty }
        ensures err { OnErr result (self.new ≡ self.old) }
    {
        self.links.reserve(1, 0)?;
        self.serials.reserve(1)?;
        let cell = self.links.add_cell();
        put_serial(&mut self.serials, cell, serial);
        Ok(cell)
    }

    /// Marks the item of a cell as dirty, behind those that are, unless it is dirty already.
    pub(crate) fn mark(&mut self, cell: usize)
        requires { IsSome (owner self.old cell) }
        ensures { (serial : ℕ) → owner self.old cell ≡ Some serial
            → self.new ≡ record self.old { dirty = marked serial self.old.dirty } }
    {
        if !self.links.is_linked(cell) {
            self.links.push_back(self.list, cell);
        }
    }

    /// The item of a cell is dirty no longer.
    pub(crate) fn unmark(&mut self, cell: usize)
        requires { IsSome (owner self.old cell) }
        ensures { (serial : ℕ) → owner self.old cell ≡ Some serial
            → self.new ≡ record self.old { dirty = without serial self.old.dirty } }
    {
        loosen(&mut self.links, cell);
    }

    /// Takes the cell of an item away, which is dirty no longer.
    pub(crate) fn free(&mut self, cell: usize)
        requires { IsSome (owner self.old cell) }
        ensures owner { (other : ℕ) →
            owner self.new other ≡ (if other == cell then None else owner self.old other) }
        ensures dirty { (serial : ℕ) → owner self.old cell ≡ Some serial
            → self.new.dirty ≡ without serial self.old.dirty }
    {
        loosen(&mut self.links, cell);
        self.links.free_cell(cell);
    }

    /// The first dirty item, or None where none is dirty.
    pub(crate) fn first(&self) -> Option<u64>
        ensures first { result ≡ slice_get self.now.dirty 0 }
        ensures apart { IsApart self.now.dirty }
    {
        let cell = self.links.first(self.list)?;
        Some(self.serials[cell])
    }

    /// The dirty item after that of a cell, or None where it is the last or isn't dirty.
    pub(crate) fn next(&self, cell: usize) -> Option<u64>
        ensures next { (serial place : ℕ) → owner self.now cell ≡ Some serial
            → slice_get self.now.dirty place ≡ Some serial
            → result ≡ slice_get self.now.dirty (place + 1) }
        ensures apart { IsApart self.now.dirty }
    {
        let cell = self.links.next(cell)?;
        Some(self.serials[cell])
    }
}
