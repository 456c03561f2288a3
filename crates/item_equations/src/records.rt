ghost use Rattle.std.specs.Prelude.{◌≡◌, Option};
ghost use Rattle.qml_ast.specs.declared.place.Place.{Place};
ghost use Rattle.qml_ast.specs.declared.value.Value.{Value};
ghost use Rattle.item_equations.specs.Asking.{sight, walk};
ghost use Rattle.item_equations.specs.Records.{free, filling_place, filling_size, centered, at_near, at_far, between, near_and_center, far_and_center, near_line, far_line, own_size, own_offset, filled_place, filled_size, centered_place, near_place, far_place, size_between, size_from_near, size_from_far, placed, sized, anchored_as};

use crate::axis::Axis;
use crate::lines::{TiedLine, place_of, size_of, target_of, tied_line};
use crate::reading::{margin, number, shown_of};
use crate::stop::Stop;
use crate::ties::Tie;
use crate::view::ItemReader;
use anchors::{AxisColumn, AxisRecord, Row, Target, anchored};

// The record of an item with no anchors. The other records have what one formula asks for, and nothing else.
fn free() -> AxisRecord
    ensures { result ≡ free }
{
    AxisRecord {
        fill: None,
        center_in: None,
        near: None,
        far: None,
        center: None,
        near_margin: 0,
        far_margin: 0,
        offset: 0,
        size: 0,
    }
}

fn filling_place(place: i64, margin: i32) -> AxisRecord
    ensures { result ≡ filling_place place margin }
{
    AxisRecord {
        fill: Some(Target { place, size: 0 }),
        near_margin: margin,
        ..free()
    }
}

fn filling_size(size: i64, near: i32, far: i32) -> AxisRecord
    ensures { result ≡ filling_size size near far }
{
    AxisRecord {
        fill: Some(Target { place: 0, size }),
        near_margin: near,
        far_margin: far,
        ..free()
    }
}

fn centered(center: Target, size: i32, offset: i32) -> AxisRecord
    ensures { result ≡ centered center size offset }
{
    AxisRecord {
        center: Some(center),
        size,
        offset,
        ..free()
    }
}

fn at_near(near: TiedLine) -> AxisRecord
    ensures { result ≡ at_near near }
{
    AxisRecord {
        near: Some(near.line),
        near_margin: near.margin,
        ..free()
    }
}

fn at_far(far: TiedLine, size: i32) -> AxisRecord
    ensures { result ≡ at_far far size }
{
    AxisRecord {
        far: Some(far.line),
        far_margin: far.margin,
        size,
        ..free()
    }
}

fn between(near: TiedLine, far: TiedLine) -> AxisRecord
    ensures { result ≡ between near far }
{
    AxisRecord {
        far: Some(far.line),
        far_margin: far.margin,
        ..at_near(near)
    }
}

fn near_and_center(near: TiedLine, center: Target, offset: i32) -> AxisRecord
    ensures { result ≡ near_and_center near center offset }
{
    AxisRecord {
        center: Some(center),
        offset,
        ..at_near(near)
    }
}

fn far_and_center(far: TiedLine, center: Target, offset: i32) -> AxisRecord
    ensures { result ≡ far_and_center far center offset }
{
    AxisRecord {
        far: Some(far.line),
        far_margin: far.margin,
        center: Some(center),
        offset,
        ..free()
    }
}

// The near line of an item, as it is tied.
#[tactic(auto, using(crate::proofs::Walks::steps))]
fn near_line<R: ItemReader>(reader: &R, axis: Axis, item: u64, tie: Tie) -> Result<TiedLine, Stop>
    ensures { walk (sight (R.clean reader.now) (R.means reader.now)) (near_line (R.family reader.now) axis item tie) ≡ result }
{
    tied_line(reader, axis, item, axis.slots().near_margin, tie)
}

// The far line of an item, as it is tied.
#[tactic(auto, using(crate::proofs::Walks::steps))]
fn far_line<R: ItemReader>(reader: &R, axis: Axis, item: u64, tie: Tie) -> Result<TiedLine, Stop>
    ensures { walk (sight (R.clean reader.now) (R.means reader.now)) (far_line (R.family reader.now) axis item tie) ≡ result }
{
    tied_line(reader, axis, item, axis.slots().far_margin, tie)
}

// The size that an item shows.
#[tactic(auto, using(crate::proofs::Walks::steps))]
fn own_size<R: ItemReader>(reader: &R, axis: Axis, item: u64) -> Result<i32, Stop>
    ensures { walk (sight (R.clean reader.now) (R.means reader.now)) (own_size (R.family reader.now) axis item) ≡ result }
{
    number(reader, shown_of(item, axis.slots().size))
}

// How far from its target an item's centre line is to stand.
#[tactic(auto, using(crate::proofs::Walks::steps))]
fn own_offset<R: ItemReader>(reader: &R, axis: Axis, item: u64) -> Result<i32, Stop>
    ensures { walk (sight (R.clean reader.now) (R.means reader.now)) (own_offset (R.family reader.now) axis item) ≡ result }
{
    number(reader, shown_of(item, axis.slots().offset))
}

// What the place of an item that fills another one asks for.
#[tactic(auto, using(crate::proofs::Walks::steps), unfolding(crate::specs::Records::filled_place))]
fn filled_place<R: ItemReader>(
    reader: &R,
    axis: Axis,
    item: u64,
    tie: Tie,
) -> Result<AxisRecord, Stop>
    ensures { walk (sight (R.clean reader.now) (R.means reader.now)) (filled_place (R.family reader.now) axis item tie) ≡ result }
{
    let place = place_of(reader, axis, tie)?;
    let margin = margin(reader, item, axis.slots().near_margin)?;
    Ok(filling_place(place, margin))
}

// What the size of an item that fills another one asks for.
#[tactic(auto, using(crate::proofs::Walks::steps), unfolding(crate::specs::Records::filled_size))]
fn filled_size<R: ItemReader>(
    reader: &R,
    axis: Axis,
    item: u64,
    tie: Tie,
) -> Result<AxisRecord, Stop>
    ensures { walk (sight (R.clean reader.now) (R.means reader.now)) (filled_size (R.family reader.now) axis item tie) ≡ result }
{
    let size = size_of(reader, axis, tie)?;
    let near = margin(reader, item, axis.slots().near_margin)?;
    let far = margin(reader, item, axis.slots().far_margin)?;
    Ok(filling_size(size, near, far))
}

// What the place of a centred item asks for.
#[tactic(auto, using(crate::proofs::Walks::steps), unfolding(crate::specs::Records::centered_place))]
fn centered_place<R: ItemReader>(
    reader: &R,
    axis: Axis,
    item: u64,
    tie: Tie,
) -> Result<AxisRecord, Stop>
    ensures { walk (sight (R.clean reader.now) (R.means reader.now)) (centered_place (R.family reader.now) axis item tie) ≡ result }
{
    let center = target_of(reader, axis, tie)?;
    let size = own_size(reader, axis, item)?;
    let offset = own_offset(reader, axis, item)?;
    Ok(centered(center, size, offset))
}

// What the place of an item with a tied near line asks for.
#[tactic(auto, using(crate::proofs::Walks::steps), unfolding(crate::specs::Records::near_place))]
fn near_place<R: ItemReader>(
    reader: &R,
    axis: Axis,
    item: u64,
    tie: Tie,
) -> Result<AxisRecord, Stop>
    ensures { walk (sight (R.clean reader.now) (R.means reader.now)) (near_place (R.family reader.now) axis item tie) ≡ result }
{
    let near = near_line(reader, axis, item, tie)?;
    Ok(at_near(near))
}

// What the place of an item asks for whose far line alone is tied.
#[tactic(auto, using(crate::proofs::Walks::steps), unfolding(crate::specs::Records::far_place))]
fn far_place<R: ItemReader>(reader: &R, axis: Axis, item: u64, tie: Tie) -> Result<AxisRecord, Stop>
    ensures { walk (sight (R.clean reader.now) (R.means reader.now)) (far_place (R.family reader.now) axis item tie) ≡ result }
{
    let far = far_line(reader, axis, item, tie)?;
    let size = own_size(reader, axis, item)?;
    Ok(at_far(far, size))
}

// What the size between two tied lines asks for.
#[tactic(auto, using(crate::proofs::Walks::steps), unfolding(crate::specs::Records::size_between))]
fn size_between<R: ItemReader>(
    reader: &R,
    axis: Axis,
    item: u64,
    near: Tie,
    far: Tie,
) -> Result<AxisRecord, Stop>
    ensures { walk (sight (R.clean reader.now) (R.means reader.now)) (size_between (R.family reader.now) axis item near far) ≡ result }
{
    let far = far_line(reader, axis, item, far)?;
    let near = near_line(reader, axis, item, near)?;
    Ok(between(near, far))
}

// What the size between a tied near line and a tied centre asks for.
#[tactic(auto, using(crate::proofs::Walks::steps), unfolding(crate::specs::Records::size_from_near))]
fn size_from_near<R: ItemReader>(
    reader: &R,
    axis: Axis,
    item: u64,
    near: Tie,
    center: Tie,
) -> Result<AxisRecord, Stop>
    ensures { walk (sight (R.clean reader.now) (R.means reader.now)) (size_from_near (R.family reader.now) axis item near center) ≡ result }
{
    let center = target_of(reader, axis, center)?;
    let offset = own_offset(reader, axis, item)?;
    let near = near_line(reader, axis, item, near)?;
    Ok(near_and_center(near, center, offset))
}

// What the size between a tied centre and a tied far line asks for, and the place with it.
#[tactic(auto, using(crate::proofs::Walks::steps), unfolding(crate::specs::Records::size_from_far))]
fn size_from_far<R: ItemReader>(
    reader: &R,
    axis: Axis,
    item: u64,
    far: Tie,
    center: Tie,
) -> Result<AxisRecord, Stop>
    ensures { walk (sight (R.clean reader.now) (R.means reader.now)) (size_from_far (R.family reader.now) axis item far center) ≡ result }
{
    let far = far_line(reader, axis, item, far)?;
    let center = target_of(reader, axis, center)?;
    let offset = own_offset(reader, axis, item)?;
    Ok(far_and_center(far, center, offset))
}

/// What the place in a row of the table of anchors asks for.
#[tactic(auto, using(crate::proofs::Walks::steps), unfolding(crate::specs::Records::placed))]
pub(crate) fn placed<R: ItemReader>(
    reader: &R,
    axis: Axis,
    item: u64,
    row: Row<Tie, Tie>,
) -> Result<AxisRecord, Stop>
    ensures { walk (sight (R.clean reader.now) (R.means reader.now)) (placed (R.family reader.now) axis item row) ≡ result }
{
    match row {
        Row::Fill(tie) => filled_place(reader, axis, item, tie),
        Row::Center(tie) => centered_place(reader, axis, item, tie),
        Row::NearAndFar { near, .. } => near_place(reader, axis, item, near),
        Row::Near(near) => near_place(reader, axis, item, near),
        Row::NearAndCenter { near, .. } => near_place(reader, axis, item, near),
        Row::Far(far) => far_place(reader, axis, item, far),
        Row::FarAndCenter { far, center } => size_from_far(reader, axis, item, far, center),
        Row::Free => Ok(free()),
    }
}

/// What the size in a row of the table of anchors asks for.
#[tactic(auto, using(crate::proofs::Walks::steps), unfolding(crate::specs::Records::sized))]
pub(crate) fn sized<R: ItemReader>(
    reader: &R,
    axis: Axis,
    item: u64,
    row: Row<Tie, Tie>,
) -> Result<AxisRecord, Stop>
    ensures { walk (sight (R.clean reader.now) (R.means reader.now)) (sized (R.family reader.now) axis item row) ≡ result }
{
    match row {
        Row::Fill(tie) => filled_size(reader, axis, item, tie),
        Row::NearAndFar { near, far } => size_between(reader, axis, item, near, far),
        Row::NearAndCenter { near, center } => size_from_near(reader, axis, item, near, center),
        Row::FarAndCenter { far, center } => size_from_far(reader, axis, item, far, center),
        Row::Center(_) | Row::Near(_) | Row::Far(_) | Row::Free => Ok(free()),
    }
}

/// What a column of the table of anchors has for a record; none where it is free.
#[tactic(auto, using(crate::proofs::Walks::steps), unfolding(crate::specs::Asking::walk, crate::specs::Records::anchored_as))]
pub(crate) fn anchored_as(column: AxisColumn, axis: &AxisRecord) -> Result<Option<i32>, Stop>
    ensures { (see : Place → Option Value) → walk see (anchored_as column axis.now) ≡ result }
{
    match anchored(axis, column) {
        Ok(value) => Ok(value),
        Err(_) => Err(Stop::Overflow),
    }
}
