ghost use Rattle.std.specs.Prelude.{◌≡◌, ◌≢◌, ◌↔◌, ℕ, ◌+◌, ◌-◌, ◌<◌, ◌≤◌, max, true, false, [], ◌∷◌, ◌++◌, length, slice_get, slice_set, insert, remove, OnOk, OnErr, IsTrue};
ghost use Rattle.links.specs.Slots.{placed};
ghost use Rattle.links.specs.Chains.{cells_in, HasList, HasCell, freed_lists, freed_cells, StandsAt, IsLinked, IsLoose, AreDisjoint};

use crate::cell::{Cell, Ends, Link, ends_at, last_of, link_of, put, take};
use crate::packed::{PackedCell, PackedEnds};
use crate::pool::Pool;
use crate::slot::Slot;
use std::alloc::{AllocError, Global};
use std::marker::Model;
use std::mem::size_of;

/// Lists of cells, where each cell is in one list at most. Lists and cells go by numbers. Contracts
/// see the cells of each list in order, which numbers cells have, and how many more lists and cells
/// may be added.
///
/// Only `reserve` takes memory, and each other call takes the same time however long the lists are.
#[derive(Drop)]
pub struct Links {
    cells: Pool<PackedCell>,
    lists: Pool<PackedEnds>,
}

impl Model for Links {
    ghost use Rattle.links.specs.Chains.{Chains};

    ghost Value = { Chains };

    ghost use Rattle.links.specs.Cells.{chains_of, lists_from, Represents};

    ghost view = { λ l. chains_of l.cells l.lists };

    ghost invariant = { λ l. Represents l.cells.slots l.lists.slots
        (lists_from l.cells.slots l.lists.slots) };
}

const _: () = prove!(size_of::<Slot<PackedCell>>() == 16);

const _: () = prove!(size_of::<Slot<PackedEnds>>() == 12);

/// The ends of a list without cells.
fn no_cells() -> PackedEnds
    ensures { result ≡ record { first = None; last = None } }
{
    PackedEnds::new(Ends {
        first: None,
        last: None,
    })
}

impl Links {
    /// No list and no cell, and none to spare.
    pub fn new(alloc: Global) -> Links
        ensures { result ≡ record {
          lists = [];
          cells = [];
          spare_lists = 0;
          spare_cells = 0;
        } }
    {
        Links {
            cells: Pool::new(alloc),
            lists: Pool::new(alloc),
        }
    }

    /// Makes room, so that at least so many cells and so many lists may be added. Its only error is
    /// that memory ran out.
    pub fn reserve(&mut self, cells: usize, lists: usize) -> Result<(), AllocError>
        ensures ok { OnOk result (self.new ≡ record self.old {
          spare_lists = max self.old.spare_lists lists;
          spare_cells = max self.old.spare_cells cells;
        }) }
        ensures err { OnErr result (self.new ≡ self.old) }
        ensures disjoint { AreDisjoint self.new }
    {
        let spare = self.cells.spare();
        self.cells.reserve(cells)?;
        if self.lists.reserve(lists).is_err() {
            self.cells.lower_spare(spare);
            return Err(AllocError);
        }
        Ok(())
    }

    /// Adds an empty list, and gives its number, which no list had.
    pub fn add_list(&mut self) -> usize
        requires { 0 < self.old.spare_lists }
        ensures within { result ≤ length self.old.lists }
        ensures unused { ¬ HasList self.old result }
        ensures after { self.new ≡ record self.old {
          lists = placed self.old.lists result (Some []);
          spare_lists = self.old.spare_lists - 1;
        } }

        // Where no freed number may be used again, numbers go up by one.
        ensures new_number { ((list : ℕ) → slice_get self.old.lists list ≢ Some None)
            → result ≡ length self.old.lists }
        ensures disjoint { AreDisjoint self.new }
    {
        self.lists.add(no_cells())
    }

    /// Adds an empty list under a number that no list has: that of a list that was freed, or the next.
    /// For the next there must be room beside the numbers of the lists that were freed.
    pub fn add_list_at(&mut self, list: usize)
        requires unused { ¬ HasList self.old list }
        requires within { list ≤ length self.old.lists }
        requires room { list ≡ length self.old.lists → freed_lists self.old < self.old.spare_lists }
        ensures after { self.new ≡ record self.old {
          lists = placed self.old.lists list (Some []);
          spare_lists = self.old.spare_lists - 1;
        } }
        ensures disjoint { AreDisjoint self.new }
    {
        self.lists.add_at(list, no_cells());
    }

    /// Adds a cell that is in no list, and gives its number, which no cell had.
    pub fn add_cell(&mut self) -> usize
        requires { 0 < self.old.spare_cells }
        ensures within { result ≤ length self.old.cells }
        ensures unused { ¬ HasCell self.old result }
        ensures after { self.new ≡ record self.old {
          cells = placed self.old.cells result true;
          spare_cells = self.old.spare_cells - 1;
        } }

        ensures loose { IsLoose self.new result }

        // Where no freed number may be used again, numbers go up by one.
        ensures new_number { ((cell : ℕ) → slice_get self.old.cells cell ≢ Some false)
            → result ≡ length self.old.cells }
        ensures disjoint { AreDisjoint self.new }
    {
        self.cells.add(PackedCell::new(Cell::Loose))
    }

    /// Adds a cell that is in no list under a number that no cell has: that of a cell that was freed,
    /// or the next. For the next there must be room beside the numbers of the cells that were freed.
    pub fn add_cell_at(&mut self, cell: usize)
        requires unused { ¬ HasCell self.old cell }
        requires within { cell ≤ length self.old.cells }
        requires room { cell ≡ length self.old.cells → freed_cells self.old < self.old.spare_cells }
        ensures after { self.new ≡ record self.old {
          cells = placed self.old.cells cell true;
          spare_cells = self.old.spare_cells - 1;
        } }
        ensures loose { IsLoose self.new cell }
        ensures disjoint { AreDisjoint self.new }
    {
        self.cells.add_at(cell, PackedCell::new(Cell::Loose));
    }

    /// Takes a cell away that is in no list. There is then one more to spare.
    pub fn free_cell(&mut self, cell: usize)
        requires cell { HasCell self.old cell }
        requires loose { IsLoose self.old cell }
        ensures after { self.new ≡ record self.old {
          cells = slice_set self.old.cells cell false;
          spare_cells = self.old.spare_cells + 1;
        } }
        ensures disjoint { AreDisjoint self.new }
    {
        self.cells.remove(cell);
    }

    /// Takes an empty list away. There is then one more to spare.
    pub fn free_list(&mut self, list: usize)
        requires list { HasList self.old list }
        requires empty { cells_in self.old.lists list ≡ [] }
        ensures after { self.new ≡ record self.old {
          lists = slice_set self.old.lists list None;
          spare_lists = self.old.spare_lists + 1;
        } }
        ensures disjoint { AreDisjoint self.new }
    {
        self.lists.remove(list);
    }

    /// Puts a cell that is in no list at the end of a list.
    pub fn push_back(&mut self, list: usize, cell: usize)
        requires list { HasList self.old list }
        requires cell { HasCell self.old cell }
        requires loose { IsLoose self.old cell }
        ensures after { self.new ≡ record self.old {
          lists = slice_set self.old.lists list
              (Some (cells_in self.old.lists list ++ cell ∷ []));
        } }
        ensures disjoint { AreDisjoint self.new }
    {
        let place = Link {
            list,
            previous: last_of(&self.lists, list),
            next: None,
        };
        put(&mut self.cells, &mut self.lists, cell, place);
    }

    /// Puts a cell that is in no list right before the cell `at`, in the list that has it.
    pub fn insert_before(&mut self, cell: usize, at: usize)
        requires cell { HasCell self.old cell }
        requires loose { IsLoose self.old cell }
        requires linked { IsLinked self.old at }

        // Wherever `at` stands.
        ensures after { (list place : ℕ) → StandsAt self.old list place at
            → self.new ≡ record self.old {
              lists = slice_set self.old.lists list
                  (Some (insert (cells_in self.old.lists list) place cell));
            } }
        ensures disjoint { AreDisjoint self.new }
    {
        let Some(link) = link_of(&self.cells, at) else {
            unreachable!()
        };
        let place = Link {
            next: Some(at),
            ..link
        };
        put(&mut self.cells, &mut self.lists, cell, place);
    }

    /// Takes a cell out of the list that has it. It is then in no list.
    pub fn unlink(&mut self, cell: usize)
        requires linked { IsLinked self.old cell }

        // Wherever the cell stands.
        ensures after { (list place : ℕ) → StandsAt self.old list place cell
            → self.new ≡ record self.old {
              lists = slice_set self.old.lists list
                  (Some (remove (cells_in self.old.lists list) place));
            } }
        ensures loose { IsLoose self.new cell }
        ensures disjoint { AreDisjoint self.new }
    {
        let Some(place) = link_of(&self.cells, cell) else {
            unreachable!()
        };
        take(&mut self.cells, &mut self.lists, cell, place);
    }

    /// The first cell of a list, or None where it has none or there is no such list.
    pub fn first(&self, list: usize) -> Option<usize>
        ensures first { result ≡ slice_get (cells_in self.now.lists list) 0 }
        ensures disjoint { AreDisjoint self.now }
    {
        ends_at(&self.lists, list)?.first
    }

    /// The cell after a cell in the list that has it, or None where it is the last, or in no list.
    pub fn next(&self, cell: usize) -> Option<usize>
        ensures next { (list place : ℕ) → StandsAt self.now list place cell
            → result ≡ slice_get (cells_in self.now.lists list) (place + 1) }
        ensures loose { IsLoose self.now cell → result ≡ None }
        ensures disjoint { AreDisjoint self.now }
    {
        link_of(&self.cells, cell)?.next
    }

    /// Whether a cell is in a list. It is in none where there is no such cell.
    pub fn is_linked(&self, cell: usize) -> bool
        ensures linked { IsTrue result ↔ IsLinked self.now cell }
        ensures disjoint { AreDisjoint self.now }
    {
        link_of(&self.cells, cell).is_some()
    }
}
