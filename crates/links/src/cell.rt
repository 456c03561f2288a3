ghost use Rattle.std.specs.Prelude.{◌≡◌, ◌<◌, Some, None, IsSome, IfSome, slice_get, slice_set, unwrap_or};
ghost use Rattle.links.specs.Packed.{no_number, IsSmall, IsSmallLink, IsSmallCell};
ghost use Rattle.links.specs.Cells.{with_next, with_previous, with_first, with_last, with_neighbours, with_ends, link_in, last_in};

use crate::packed::{PackedCell, PackedEnds};
use crate::pool::Pool;

/// A place in a list, between two neighbours.
#[derive(Clone, Copy)]
pub(crate) struct Link {
    pub(crate) list: usize,
    /// The cell before it, if it isn't the first.
    pub(crate) previous: Option<usize>,
    /// The cell after it, if it isn't the last.
    pub(crate) next: Option<usize>,
}

/// Where a cell stands.
#[derive(Clone, Copy)]
pub(crate) enum Cell {
    /// In no list.
    Loose,
    Linked(Link),
}

/// The first and the last cell of a list, if it has any.
#[derive(Clone, Copy)]
pub(crate) struct Ends {
    pub(crate) first: Option<usize>,
    pub(crate) last: Option<usize>,
}

/// What a cell knows, if it is there.
pub(crate) fn cell_at(cells: &Pool<PackedCell>, cell: usize) -> Option<Cell>
    ensures value { result ≡ unwrap_or (slice_get cells.now.slots cell) None }
    ensures small { IfSome result IsSmallCell }
    ensures number { IsSome result → cell < no_number }
{
    match cells.get(cell) {
        Some(stored) => Some(stored.get()),
        None => None,
    }
}

/// The ends of a list, if it is there.
pub(crate) fn ends_at(lists: &Pool<PackedEnds>, list: usize) -> Option<Ends>
    ensures value { result ≡ unwrap_or (slice_get lists.now.slots list) None }
    ensures first { IfSome result (λ ends. IsSmall ends.first) }
    ensures last { IfSome result (λ ends. IsSmall ends.last) }
    ensures number { IsSome result → list < no_number }
{
    match lists.get(list) {
        Some(stored) => Some(stored.get()),
        None => None,
    }
}

/// Gives a cell that is in a list another next one.
#[tactic(auto, using(crate::proofs::Places::set_same))]
pub(crate) fn set_next(cells: &mut Pool<PackedCell>, cell: usize, next: Option<usize>)
    requires { IsSmall next }
    ensures { cells.new ≡ record cells.old { slots = with_next cells.old.slots cell next } }
{
    if let Some(Cell::Linked(link)) = cell_at(cells, cell) {
        cells.set(cell, PackedCell::new(Cell::Linked(Link { next, ..link })));
    }
}

/// Gives a cell that is in a list another previous one.
#[tactic(auto, using(crate::proofs::Places::set_same))]
pub(crate) fn set_previous(cells: &mut Pool<PackedCell>, cell: usize, previous: Option<usize>)
    requires { IsSmall previous }
    ensures { cells.new ≡ record cells.old { slots = with_previous cells.old.slots cell previous } }
{
    if let Some(Cell::Linked(link)) = cell_at(cells, cell) {
        cells.set(
            cell,
            PackedCell::new(Cell::Linked(Link { previous, ..link })),
        );
    }
}

/// Gives a list another first cell.
#[tactic(auto, using(crate::proofs::Places::set_same))]
pub(crate) fn set_first(lists: &mut Pool<PackedEnds>, list: usize, first: Option<usize>)
    requires { IsSmall first }
    ensures { lists.new ≡ record lists.old { slots = with_first lists.old.slots list first } }
{
    if let Some(ends) = ends_at(lists, list) {
        lists.set(list, PackedEnds::new(Ends { first, ..ends }));
    }
}

/// Gives a list another last cell.
#[tactic(auto, using(crate::proofs::Places::set_same))]
pub(crate) fn set_last(lists: &mut Pool<PackedEnds>, list: usize, last: Option<usize>)
    requires { IsSmall last }
    ensures { lists.new ≡ record lists.old { slots = with_last lists.old.slots list last } }
{
    if let Some(ends) = ends_at(lists, list) {
        lists.set(list, PackedEnds::new(Ends { last, ..ends }));
    }
}

/// Gives the neighbours of a place these cells as the next and the previous one. Where there is no
/// neighbour they are the first and the last of the list.
pub(crate) fn set_neighbours(
    cells: &mut Pool<PackedCell>,
    lists: &mut Pool<PackedEnds>,
    place: Link,
    next: Option<usize>,
    previous: Option<usize>,
)
    requires place { IsSmallLink place }
    requires next { IsSmall next }
    requires previous { IsSmall previous }
    ensures cells { cells.new ≡ record cells.old {
      slots = with_neighbours cells.old.slots place next previous;
    } }
    ensures lists { lists.new ≡ record lists.old {
      slots = with_ends lists.old.slots place next previous;
    } }
{
    match place.previous {
        Some(cell) => set_next(cells, cell, next),
        None => set_first(lists, place.list, next),
    }
    match place.next {
        Some(cell) => set_previous(cells, cell, previous),
        None => set_last(lists, place.list, previous),
    }
}

/// Where the cell stands, if it is in a list.
pub(crate) fn link_of(cells: &Pool<PackedCell>, cell: usize) -> Option<Link>
    ensures value { result ≡ link_in cells.now.slots cell }
    ensures small { IfSome result IsSmallLink }
    ensures number { IsSome result → cell < no_number }
{
    match cell_at(cells, cell) {
        Some(Cell::Linked(link)) => Some(link),
        _ => None,
    }
}

/// The last cell of a list, if there is one.
pub(crate) fn last_of(lists: &Pool<PackedEnds>, list: usize) -> Option<usize>
    ensures value { result ≡ last_in lists.now.slots list }
    ensures small { IsSmall result }
    ensures number { IsSome (unwrap_or (slice_get lists.now.slots list) None) → list < no_number }
{
    ends_at(lists, list)?.last
}

/// Puts a cell that is in no list between the neighbours of a place.
pub(crate) fn put(
    cells: &mut Pool<PackedCell>,
    lists: &mut Pool<PackedEnds>,
    cell: usize,
    place: Link,
)
    requires used { IsSome (unwrap_or (slice_get cells.old.slots cell) None) }
    requires small { IsSmallLink place }
    ensures cells { cells.new ≡ record cells.old {
      slots = with_neighbours (slice_set cells.old.slots cell (Some (Cell.Linked place))) place
          (Some cell) (Some cell);
    } }
    ensures lists { lists.new ≡ record lists.old {
      slots = with_ends lists.old.slots place (Some cell) (Some cell);
    } }
{
    cells.set(cell, PackedCell::new(Cell::Linked(place)));
    set_neighbours(cells, lists, place, Some(cell), Some(cell));
}

/// Takes a cell from its place, whose neighbours are then next to each other.
pub(crate) fn take(
    cells: &mut Pool<PackedCell>,
    lists: &mut Pool<PackedEnds>,
    cell: usize,
    place: Link,
)
    requires used { IsSome (unwrap_or (slice_get cells.old.slots cell) None) }
    requires small { IsSmallLink place }
    ensures cells { cells.new ≡ record cells.old {
      slots = with_neighbours (slice_set cells.old.slots cell (Some Cell.Loose)) place
          place.next place.previous;
    } }
    ensures lists { lists.new ≡ record lists.old {
      slots = with_ends lists.old.slots place place.next place.previous;
    } }
{
    cells.set(cell, PackedCell::new(Cell::Loose));
    set_neighbours(cells, lists, place, place.next, place.previous);
}
