//! What the items of a store are painted as, and what a window shows of them.
#![tactic(auto)]

mod children;
pub mod items;
pub mod rectangle_slots;
pub mod showing;
mod values;
mod walk;

pub use items::item_paint;
pub use showing::{CONTENT_ITEM, paint_list, picture};
