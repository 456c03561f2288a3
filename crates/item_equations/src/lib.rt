//! What the slots of an item show that follow from its anchors, its parent and its children: place and size,
//! `childrenRect`, and whether it is visible and enabled (Qt 5 QML Reference, Positioning with Anchors, and Item).
//! Which places an equation reads, and in which order, depends on what it has read before.
#![tactic(auto)]

pub mod axis;
mod children;
pub mod ignored;
pub mod laws;
mod lines;
pub mod native;
pub mod progress;
mod reading;
mod records;
mod rows;
mod shown;
pub mod stop;
pub mod ties;
pub mod view;

pub use axis::Axis;
pub use ignored::{Neglect, is_anchor, neglect_of};
pub use laws::equations_say_what_is_shown;
pub use native::{Native, evaluate, native_of};
pub use progress::Progress;
pub use stop::Stop;
pub use ties::{Kin, Spot, Tie, tie_of};
pub use view::ItemReader;
