ghost use Rattle.std.specs.Prelude.{◌≡◌, Option, ◌-ℤ◌};
ghost use Rattle.qml_ast.specs.declared.place.Place.{Place};
ghost use Rattle.qml_ast.specs.declared.value.Value.{Value};
ghost use Rattle.item_equations.specs.Asking.{sight, walk};
ghost use Rattle.item_equations.specs.Progress.{IsLeast, IsExtent};
ghost use Rattle.item_equations.specs.Children.{is_child, least, least_with, least_from, span, joined, widened, extent_with, extent_from, or_none, ranged, length_of, children_place, children_size};

use crate::axis::Axis;
use crate::progress::Progress;
use crate::reading::{number, shown_of};
use crate::stop::Stop;
use crate::view::ItemReader;

/// From where items begin to where the last of them ends on an axis, in pixels of their parent.
#[derive(Clone, Copy)]
pub(crate) struct Extent {
    begin: i64,
    end: i64,
}

impl Extent {
    fn length(self) -> i128
        ensures { result ≡ self.end -ℤ self.begin }
    {
        i128::from(self.end) - i128::from(self.begin)
    }
}

// Whether an object is an item in this one.
fn is_child<R: ItemReader>(reader: &R, item: u64, object: u64) -> bool
    ensures { result ≡ is_child (R.family reader.now) item object }
{
    reader.parent(object) == Some(item)
}

#[tactic(auto, unfolding(crate::specs::Children::least))]
fn least(before: Option<i32>, place: i32) -> i32
    ensures { result ≡ least before place }
{
    match before {
        Some(before) => before.min(place),
        None => place,
    }
}

// The least place with one object more.
#[tactic(auto, using(crate::proofs::Walks::steps), unfolding(crate::specs::Children::least_with))]
fn least_with<R: ItemReader>(
    reader: &R,
    axis: Axis,
    item: u64,
    before: Option<i32>,
    object: u64,
) -> Result<Option<i32>, Stop>
    ensures { walk (sight (R.clean reader.now) (R.means reader.now)) (least_with (R.family reader.now) axis item before object) ≡ result }
{
    if !is_child(reader, item, object) {
        return Ok(before);
    }
    let place = number(reader, shown_of(object, axis.slots().place))?;
    Ok(Some(least(before, place)))
}

// The least place of the items among these objects, of which some were met. Where it stops, it says how far it came.
#[tactic(auto, using(crate::proofs::Walks::steps, crate::proofs::Folds::least_steps))]
fn least_of<R: ItemReader>(
    reader: &R,
    axis: Axis,
    item: u64,
    objects: &[u64],
    far: &mut Progress,
) -> Result<Option<i32>, Stop>
    requires { IsLeast (sight (R.clean reader.now) (R.means reader.now)) (R.family reader.now) axis item objects.now far.old }
    ensures least { walk (sight (R.clean reader.now) (R.means reader.now)) (least_from (R.family reader.now) axis item None objects.now) ≡ result }
    ensures met { IsLeast (sight (R.clean reader.now) (R.means reader.now)) (R.family reader.now) axis item objects.now far.new }
{
    for index in far.met..objects.len() {
        far.least = least_with(reader, axis, item, far.least, objects[index])?;
        far.met = index + 1;
    }
    Ok(far.least)
}

// Where an item begins and ends.
fn span(place: i32, size: i32) -> Extent
    ensures { result ≡ span place size }
{
    let begin = i64::from(place);
    Extent {
        begin,
        end: begin + i64::from(size),
    }
}

// From where the first of two begins to where the last of them ends.
#[tactic(auto, unfolding(crate::specs::Children::joined))]
fn joined(a: Extent, b: Extent) -> Extent
    ensures { result ≡ joined a b }
{
    Extent {
        begin: a.begin.min(b.begin),
        end: a.end.max(b.end),
    }
}

#[tactic(auto, unfolding(crate::specs::Children::widened))]
fn widened(before: Option<Extent>, span: Extent) -> Extent
    ensures { result ≡ widened before span }
{
    match before {
        Some(before) => joined(before, span),
        None => span,
    }
}

// Where the items begin and end with one object more.
#[tactic(auto, using(crate::proofs::Walks::steps), unfolding(crate::specs::Children::extent_with))]
fn extent_with<R: ItemReader>(
    reader: &R,
    axis: Axis,
    item: u64,
    before: Option<Extent>,
    object: u64,
) -> Result<Option<Extent>, Stop>
    ensures { walk (sight (R.clean reader.now) (R.means reader.now)) (extent_with (R.family reader.now) axis item before object) ≡ result }
{
    if !is_child(reader, item, object) {
        return Ok(before);
    }
    let place = number(reader, shown_of(object, axis.slots().place))?;
    let size = number(reader, shown_of(object, axis.slots().size))?;
    Ok(Some(widened(before, span(place, size))))
}

// Where the items among these objects begin and end, of which some were met. Where it stops, it says how far it came.
#[tactic(auto, using(crate::proofs::Walks::steps, crate::proofs::Folds::extent_steps))]
fn extent_of<R: ItemReader>(
    reader: &R,
    axis: Axis,
    item: u64,
    objects: &[u64],
    far: &mut Progress,
) -> Result<Option<Extent>, Stop>
    requires { IsExtent (sight (R.clean reader.now) (R.means reader.now)) (R.family reader.now) axis item objects.now far.old }
    ensures extent { walk (sight (R.clean reader.now) (R.means reader.now)) (extent_from (R.family reader.now) axis item None objects.now) ≡ result }
    ensures met { IsExtent (sight (R.clean reader.now) (R.means reader.now)) (R.family reader.now) axis item objects.now far.new }
{
    for index in far.met..objects.len() {
        far.extent = extent_with(reader, axis, item, far.extent, objects[index])?;
        far.met = index + 1;
    }
    Ok(far.extent)
}

/// Where the items in an item begin on an axis; 0 where there are none.
#[tactic(auto, using(crate::proofs::Walks::steps), unfolding(crate::specs::Children::children_place))]
pub(crate) fn children_place<R: ItemReader>(
    reader: &R,
    axis: Axis,
    item: u64,
    far: &mut Progress,
) -> Result<i32, Stop>
    requires { IsLeast (sight (R.clean reader.now) (R.means reader.now)) (R.family reader.now) axis item ((R.family reader.now).owned item) far.old }
    ensures place { walk (sight (R.clean reader.now) (R.means reader.now)) (children_place (R.family reader.now) axis item) ≡ result }
    ensures met { IsLeast (sight (R.clean reader.now) (R.means reader.now)) (R.family reader.now) axis item ((R.family reader.now).owned item) far.new }
{
    let found = least_of(reader, axis, item, reader.owned(item), far)?;
    Ok(found.unwrap_or(0))
}

// A length, where it is an `i32`.
#[tactic(auto, unfolding(crate::specs::Asking::walk, crate::specs::Children::ranged))]
fn ranged(length: i128) -> Result<i32, Stop>
    ensures { (see : Place → Option Value) → walk see (ranged length) ≡ result }
{
    if i128::from(i32::MIN) <= length && length <= i128::from(i32::MAX) {
        Ok(length as i32)
    } else {
        Err(Stop::Overflow)
    }
}

// How long an extent is.
#[tactic(auto, unfolding(crate::specs::Asking::walk, crate::specs::Children::length_of))]
fn length_of(extent: Option<Extent>) -> Result<i32, Stop>
    ensures { (see : Place → Option Value) → walk see (length_of extent) ≡ result }
{
    match extent {
        Some(extent) => ranged(extent.length()),
        None => Ok(0),
    }
}

/// How far the items in an item reach on an axis, from where the first of them begins to where the last one ends;
/// 0 where there are none.
#[tactic(auto, using(crate::proofs::Walks::steps), unfolding(crate::specs::Children::children_size))]
pub(crate) fn children_size<R: ItemReader>(
    reader: &R,
    axis: Axis,
    item: u64,
    far: &mut Progress,
) -> Result<i32, Stop>
    requires { IsExtent (sight (R.clean reader.now) (R.means reader.now)) (R.family reader.now) axis item ((R.family reader.now).owned item) far.old }
    ensures size { walk (sight (R.clean reader.now) (R.means reader.now)) (children_size (R.family reader.now) axis item) ≡ result }
    ensures met { IsExtent (sight (R.clean reader.now) (R.means reader.now)) (R.family reader.now) axis item ((R.family reader.now).owned item) far.new }
{
    let found = extent_of(reader, axis, item, reader.owned(item), far)?;
    length_of(found)
}
