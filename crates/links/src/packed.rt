ghost use Rattle.std.specs.Prelude.{◌≡◌};
ghost use Rattle.links.specs.Packed.{IsSmall, IsSmallCell};

use crate::cell::{Cell, Ends, Link};
use crate::number::Number;
use std::marker::Model;

/// A cell as it is stored, in 12 bytes.
#[derive(Clone, Copy)]
pub(crate) struct PackedCell {
    // The list that it is in. Where there is none, no other number is given.
    list: Number,
    previous: Number,
    next: Number,
}

impl Model for PackedCell {
    ghost use Rattle.std.specs.Prelude.{◌≡◌, None};
    ghost use Rattle.links.specs.declared.cell.Cell.{Cell};
    ghost use Rattle.links.specs.Packed.{number_of, cell_of};

    ghost Value = { Cell };

    ghost use Rattle.links.specs.Inverse.{cell_stored, cell_stored_back};

    ghost view = { λ p. cell_of (number_of p.list) (number_of p.previous) (number_of p.next) };

    ghost invariant = { λ p. number_of p.list ≡ None
        → (number_of p.previous ≡ None) × (number_of p.next ≡ None) };

    ghost inverse = { cell_stored };

    ghost inverse_ok = { cell_stored_back };
}

impl PackedCell {
    /// Stores a cell.
    pub(crate) fn new(cell: Cell) -> PackedCell
        requires { IsSmallCell cell }
        ensures { result ≡ cell }
    {
        match cell {
            Cell::Loose => PackedCell {
                list: Number::new(None),
                previous: Number::new(None),
                next: Number::new(None),
            },
            Cell::Linked(link) => PackedCell {
                list: Number::new(Some(link.list)),
                previous: Number::new(link.previous),
                next: Number::new(link.next),
            },
        }
    }

    /// The cell that is stored.
    pub(crate) fn get(self) -> Cell
        ensures value { result ≡ self }
        ensures small { IsSmallCell result }
    {
        match self.list.get() {
            None => Cell::Loose,
            Some(list) => Cell::Linked(Link {
                list,
                previous: self.previous.get(),
                next: self.next.get(),
            }),
        }
    }
}

/// The ends of a list as they are stored, in 8 bytes.
#[derive(Clone, Copy)]
pub(crate) struct PackedEnds {
    first: Number,
    last: Number,
}

impl Model for PackedEnds {
    ghost use Rattle.links.specs.declared.cell.Ends.{Ends};
    ghost use Rattle.links.specs.Packed.{number_of};

    ghost Value = { Ends };

    ghost use Rattle.links.specs.Inverse.{ends_stored, ends_stored_back};

    ghost view = { λ p. record { first = number_of p.first; last = number_of p.last } };

    ghost inverse = { ends_stored };

    ghost inverse_ok = { λ a h. ends_stored_back a };
}

impl PackedEnds {
    /// Stores the ends of a list.
    pub(crate) fn new(ends: Ends) -> PackedEnds
        requires first { IsSmall ends.first }
        requires last { IsSmall ends.last }
        ensures { result ≡ ends }
    {
        PackedEnds {
            first: Number::new(ends.first),
            last: Number::new(ends.last),
        }
    }

    /// The ends that are stored.
    pub(crate) fn get(self) -> Ends
        ensures value { result ≡ self }
        ensures first { IsSmall result.first }
        ensures last { IsSmall result.last }
    {
        Ends {
            first: self.first.get(),
            last: self.last.get(),
        }
    }
}
