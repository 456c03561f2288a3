ghost use Rattle.std.specs.Prelude.{◌≡◌};
ghost use Rattle.item_equations.specs.Asking.{sight, walk};
ghost use Rattle.item_equations.specs.Rows.{tie_at, answered, row_from, row};

use crate::axis::Axis;
use crate::reading::shown_of;
use crate::stop::Stop;
use crate::ties::{Tie, tie_of};
use crate::view::ItemReader;
use anchors::{Answer, Asked, Found, Row, Step, next_step};
use expr_eval::Reader;

// What an anchor is tied to.
#[tactic(auto, unfolding(crate::specs::Asking::walk, crate::specs::Asking::sight, crate::specs::Rows::tie_at))]
fn tie_at<R: ItemReader>(
    reader: &R,
    axis: Axis,
    item: u64,
    asked: Asked,
) -> Result<Option<Tie>, Stop>
    ensures { walk (sight (R.clean reader.now) (R.means reader.now)) (tie_at (R.family reader.now) axis item asked) ≡ result }
{
    let place = shown_of(item, axis.slot_asked(asked));
    match reader.read(place) {
        Some(value) => Ok(tie_of(reader, axis, item, value)),
        None => Err(Stop::Needs(place)),
    }
}

// What is known of the anchors with one answer more.
fn answered(asked: Asked, tie: Option<Tie>, found: Found<Tie, Tie>) -> Found<Tie, Tie>
    ensures { result ≡ answered asked tie found }
{
    let answer = Answer::new(tie);
    match asked {
        Asked::Fill => Found {
            fill: answer,
            ..found
        },
        Asked::CenterIn => Found {
            center_in: answer,
            ..found
        },
        Asked::Near => Found {
            near: answer,
            ..found
        },
        Asked::Far => Found {
            far: answer,
            ..found
        },
        Asked::Center => Found {
            center: answer,
            ..found
        },
    }
}

// The row, where this is known and so many anchors may still be asked.
#[tactic(auto, using(crate::proofs::Walks::steps, crate::proofs::Chosen::row_steps))]
fn row_from<R: ItemReader>(
    reader: &R,
    axis: Axis,
    item: u64,
    left: u32,
    found: Found<Tie, Tie>,
) -> Result<Row<Tie, Tie>, Stop>
    ensures { walk (sight (R.clean reader.now) (R.means reader.now)) (row_from (R.family reader.now) axis item left found) ≡ result }
{
    if left == 0 {
        return Ok(Row::Free);
    }
    match next_step(&found) {
        Step::Row(row) => Ok(row),
        Step::Ask(asked) => {
            let tie = tie_at(reader, axis, item, asked)?;
            row_from(reader, axis, item, left - 1, answered(asked, tie, found))
        }
    }
}

/// Which row of the table of anchors an item has on an axis.
#[tactic(auto, unfolding(crate::specs::Rows::row))]
pub(crate) fn row<R: ItemReader>(reader: &R, axis: Axis, item: u64) -> Result<Row<Tie, Tie>, Stop>
    ensures { walk (sight (R.clean reader.now) (R.means reader.now)) (row (R.family reader.now) axis item) ≡ result }
{
    row_from(reader, axis, item, 6, Found::nothing())
}
