//! Anchors of an item on one axis: where its lines are tied to those of other items, the place and
//! the size that follow. The horizontal axis has left, horizontal centre, right, x and width, the
//! vertical one top, vertical centre, bottom, y and height; both have the same rules. Which anchor is
//! asked next, and which decide, stands here for all.
#![tactic(auto)]

pub mod axis;
pub mod row;
pub mod table;
pub mod walk;

pub use axis::{AxisColumn, AxisRecord, Target};
pub use row::Row;
pub use table::{Overflow, anchored};
pub use walk::{Answer, Asked, Found, Step, next_step, row_of};
