ghost use Rattle.std.specs.Prelude.{◌≡◌, is_some};
ghost use Rattle.anchors.specs.Rows.{gives_size};
ghost use Rattle.anchors.specs.Table.{row_of, size_in};
ghost use Rattle.anchors.specs.Walk.{answer_with, nothing, whole, next_of, next_of_lines, walked};

use crate::axis::{AxisRecord, Target};
use crate::row::Row;

/// One of the anchors of an axis.
#[derive(Clone, Copy, PartialEq, Eq)]
pub enum Asked {
    /// The item that is filled.
    Fill,
    /// The item in whose centre this one stands.
    CenterIn,
    /// The left or top line.
    Near,
    /// The right or bottom line.
    Far,
    /// The centre line.
    Center,
}

/// What is known of one anchor.
#[derive(Clone, Copy)]
pub enum Answer<T> {
    NotAsked,
    /// The anchor isn't there.
    Without,
    /// What the anchor is tied to.
    With(T),
}

impl<T> Answer<T> {
    /// The answer for an anchor that was asked: what it is tied to, if it is there.
    pub fn new(found: Option<T>) -> Answer<T>
        ensures { result ≡ answer_with found }
    {
        match found {
            Some(target) => Answer::With(target),
            None => Answer::Without,
        }
    }
}

/// What is known of the anchors of an axis, with targets and lines of any kind.
#[derive(Clone, Copy)]
pub struct Found<T, L> {
    pub fill: Answer<T>,
    pub center_in: Answer<T>,
    pub near: Answer<L>,
    pub far: Answer<L>,
    pub center: Answer<T>,
}

impl<T, L> Found<T, L> {
    /// No anchor was asked.
    pub fn nothing() -> Found<T, L>
        ensures { result ≡ nothing }
    {
        Found {
            fill: Answer::NotAsked,
            center_in: Answer::NotAsked,
            near: Answer::NotAsked,
            far: Answer::NotAsked,
            center: Answer::NotAsked,
        }
    }
}

/// What follows from what is known of an axis.
#[derive(Clone, Copy)]
pub enum Step<T, L> {
    /// This anchor is asked next.
    Ask(Asked),
    /// This is what decides, whatever the anchors are that weren't asked.
    Row(Row<T, L>),
}

/// What follows from the lines of an axis that neither fills a target nor is centred in one.
fn next_of_lines<T: Copy, L: Copy>(near: Answer<L>, far: Answer<L>, center: Answer<T>) -> Step<T, L>
    ensures { result ≡ next_of_lines near far center }
{
    match (near, far, center) {
        (Answer::NotAsked, _, _) => Step::Ask(Asked::Near),
        (_, Answer::NotAsked, _) => Step::Ask(Asked::Far),
        (Answer::With(near), Answer::With(far), _) => Step::Row(Row::NearAndFar { near, far }),
        (_, _, Answer::NotAsked) => Step::Ask(Asked::Center),
        (Answer::With(near), Answer::Without, Answer::With(center)) => {
            Step::Row(Row::NearAndCenter { near, center })
        }
        (Answer::Without, Answer::With(far), Answer::With(center)) => {
            Step::Row(Row::FarAndCenter { far, center })
        }
        (Answer::With(near), Answer::Without, Answer::Without) => Step::Row(Row::Near(near)),
        (Answer::Without, Answer::With(far), Answer::Without) => Step::Row(Row::Far(far)),
        (Answer::Without, Answer::Without, Answer::With(center)) => Step::Row(Row::Center(center)),
        (Answer::Without, Answer::Without, Answer::Without) => Step::Row(Row::Free),
    }
}

/// The anchor that is asked next, or the row, where what is known decides it: `fill` wins over
/// `center_in`, which wins over the lines, and a centre counts where one of the lines beside it isn't
/// tied. (Qt 5 QML Reference, Positioning with Anchors)
pub fn next_step<T: Copy, L: Copy>(found: &Found<T, L>) -> Step<T, L>
    ensures { result ≡ next_of found.now }
{
    match found.fill {
        Answer::NotAsked => Step::Ask(Asked::Fill),
        Answer::With(target) => Step::Row(Row::Fill(target)),
        Answer::Without => match found.center_in {
            Answer::NotAsked => Step::Ask(Asked::CenterIn),
            Answer::With(target) => Step::Row(Row::Center(target)),
            Answer::Without => next_of_lines(found.near, found.far, found.center),
        },
    }
}

/// All that a record has.
fn whole(axis: &AxisRecord) -> Found<Target, i64>
    ensures { result ≡ whole axis.now }
{
    Found {
        fill: Answer::new(axis.fill),
        center_in: Answer::new(axis.center_in),
        near: Answer::new(axis.near),
        far: Answer::new(axis.far),
        center: Answer::new(axis.center),
    }
}

/// The row of a whole record, from which `anchored` computes.
pub fn row_of(axis: &AxisRecord) -> Row<Target, i64>
    ensures row { result ≡ row_of axis.now }

    // Whoever begins with nothing, and asks the record for what `next_step` names, ends with that row.
    ensures walk { next_of (walked axis.now 5) ≡ Step.Row result }
    ensures sized { is_some (size_in result axis.now) ≡ gives_size result }
{
    match next_step(&whole(axis)) {
        Step::Row(row) => row,
        Step::Ask(_) => unreachable!(),
    }
}
