ghost use Rattle.std.specs.Prelude.{◌≡◌, ◌^◌, ◌+ℤ◌, ◌*ℤ◌, ◌≤ℤ◌, pos, neg_ℤ};
ghost use Rattle.item_equations.specs.Asking.{sight, walk};
ghost use Rattle.item_equations.specs.Lines.{serial_of, begin_of, extent_of, far_of, middle, middle_from, middle_of, line_of, place_of, size_of, target, target_of, tied, tied_line};

use crate::axis::Axis;
use crate::reading::{margin, number, shown_of};
use crate::stop::Stop;
use crate::ties::{Kin, Spot, Tie};
use crate::view::ItemReader;
use anchors::Target;

/// A line that an item is tied to, in pixels of its parent, with the margin that the item keeps from it.
#[derive(Clone, Copy)]
pub(crate) struct TiedLine {
    pub(crate) line: i64,
    pub(crate) margin: i32,
}

impl TiedLine {
    fn new(line: i64, margin: i32) -> TiedLine
        ensures { result ≡ tied line margin }
    {
        TiedLine { line, margin }
    }
}

fn target(place: i64, size: i64) -> Target
    ensures { result ≡ target place size }
{
    Target { place, size }
}

fn serial_of(kin: Kin) -> u64
    ensures { result ≡ serial_of kin }
{
    match kin {
        Kin::Parent(item) => item,
        Kin::Sibling(item) => item,
    }
}

// Where an item begins: a parent at 0, and a sibling at its own place.
#[tactic(auto, using(crate::proofs::Walks::steps), unfolding(crate::specs::Lines::begin_of))]
fn begin_of<R: ItemReader>(reader: &R, axis: Axis, kin: Kin) -> Result<i32, Stop>
    ensures { walk (sight (R.clean reader.now) (R.means reader.now)) (begin_of axis kin) ≡ result }
{
    match kin {
        Kin::Parent(_) => Ok(0),
        Kin::Sibling(item) => number(reader, shown_of(item, axis.slots().place)),
    }
}

// How long an item is.
#[tactic(auto, using(crate::proofs::Walks::steps), unfolding(crate::specs::Lines::extent_of))]
fn extent_of<R: ItemReader>(reader: &R, axis: Axis, kin: Kin) -> Result<i32, Stop>
    ensures { walk (sight (R.clean reader.now) (R.means reader.now)) (extent_of axis kin) ≡ result }
{
    number(reader, shown_of(serial_of(kin), axis.slots().size))
}

fn sum(place: i32, size: i32) -> i64
    ensures { result ≡ place +ℤ size }
{
    i64::from(place) + i64::from(size)
}

// Twice the place of the centre line.
fn twice_middle(place: i32, size: i32) -> i64
    ensures value { result ≡ pos 2 *ℤ place +ℤ size }
    ensures low { neg_ℤ (pos (2 ^ 33)) ≤ℤ result }
    ensures high { result ≤ℤ pos (2 ^ 33) }
{
    2 * i64::from(place) + i64::from(size)
}

#[tactic(auto, unfolding(crate::specs::Lines::middle))]
fn middle(place: i32, size: i32) -> i64
    ensures { result ≡ middle place size }
{
    twice_middle(place, size) / 2
}

// Where an item's far line is.
#[tactic(auto, using(crate::proofs::Walks::steps), unfolding(crate::specs::Lines::far_of))]
fn far_of<R: ItemReader>(reader: &R, axis: Axis, kin: Kin) -> Result<i64, Stop>
    ensures { walk (sight (R.clean reader.now) (R.means reader.now)) (far_of axis kin) ≡ result }
{
    let place = begin_of(reader, axis, kin)?;
    let size = extent_of(reader, axis, kin)?;
    Ok(sum(place, size))
}

// Where the centre line is of an item that begins here.
#[tactic(auto, using(crate::proofs::Walks::steps), unfolding(crate::specs::Lines::middle_from))]
fn middle_from<R: ItemReader>(reader: &R, axis: Axis, kin: Kin, place: i32) -> Result<i64, Stop>
    ensures { walk (sight (R.clean reader.now) (R.means reader.now)) (middle_from axis kin place) ≡ result }
{
    let size = extent_of(reader, axis, kin)?;
    Ok(middle(place, size))
}

// Where an item's centre line is; half a pixel is dropped.
#[tactic(auto, using(crate::proofs::Walks::steps), unfolding(crate::specs::Lines::middle_of))]
fn middle_of<R: ItemReader>(reader: &R, axis: Axis, kin: Kin) -> Result<i64, Stop>
    ensures { walk (sight (R.clean reader.now) (R.means reader.now)) (middle_of axis kin) ≡ result }
{
    let place = begin_of(reader, axis, kin)?;
    middle_from(reader, axis, kin, place)
}

// Where the line of a tie is.
#[tactic(auto, using(crate::proofs::Walks::steps), unfolding(crate::specs::Lines::line_of))]
fn line_of<R: ItemReader>(reader: &R, axis: Axis, tie: Tie) -> Result<i64, Stop>
    ensures { walk (sight (R.clean reader.now) (R.means reader.now)) (line_of axis tie) ≡ result }
{
    match tie.spot {
        Spot::Near => Ok(i64::from(begin_of(reader, axis, tie.kin)?)),
        Spot::Far => far_of(reader, axis, tie.kin),
        Spot::Center => middle_of(reader, axis, tie.kin),
    }
}

/// The place of what a tie stands for: of the item where it is its centre, and else of the line.
#[tactic(auto, using(crate::proofs::Walks::steps), unfolding(crate::specs::Lines::place_of))]
pub(crate) fn place_of<R: ItemReader>(reader: &R, axis: Axis, tie: Tie) -> Result<i64, Stop>
    ensures { walk (sight (R.clean reader.now) (R.means reader.now)) (place_of axis tie) ≡ result }
{
    match tie.spot {
        Spot::Far => far_of(reader, axis, tie.kin),
        Spot::Near | Spot::Center => Ok(i64::from(begin_of(reader, axis, tie.kin)?)),
    }
}

/// The size of what a tie stands for: of the item where it is its centre; a line has none.
#[tactic(auto, using(crate::proofs::Walks::steps), unfolding(crate::specs::Lines::size_of))]
pub(crate) fn size_of<R: ItemReader>(reader: &R, axis: Axis, tie: Tie) -> Result<i64, Stop>
    ensures { walk (sight (R.clean reader.now) (R.means reader.now)) (size_of axis tie) ≡ result }
{
    match tie.spot {
        Spot::Center => Ok(i64::from(extent_of(reader, axis, tie.kin)?)),
        Spot::Near | Spot::Far => Ok(0),
    }
}

/// The place and the size of what a tie stands for.
#[tactic(auto, using(crate::proofs::Walks::steps), unfolding(crate::specs::Lines::target_of))]
pub(crate) fn target_of<R: ItemReader>(reader: &R, axis: Axis, tie: Tie) -> Result<Target, Stop>
    ensures { walk (sight (R.clean reader.now) (R.means reader.now)) (target_of axis tie) ≡ result }
{
    let place = place_of(reader, axis, tie)?;
    let size = size_of(reader, axis, tie)?;
    Ok(target(place, size))
}

/// The line of a tie, with the margin of that slot of an item.
#[tactic(auto, using(crate::proofs::Walks::steps), unfolding(crate::specs::Lines::tied_line))]
pub(crate) fn tied_line<R: ItemReader>(
    reader: &R,
    axis: Axis,
    item: u64,
    slot: u32,
    tie: Tie,
) -> Result<TiedLine, Stop>
    ensures { walk (sight (R.clean reader.now) (R.means reader.now)) (tied_line (R.family reader.now) axis item slot tie) ≡ result }
{
    let line = line_of(reader, axis, tie)?;
    let margin = margin(reader, item, slot)?;
    Ok(TiedLine::new(line, margin))
}
