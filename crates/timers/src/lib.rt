//! Timers by serial: which of them is due first, and what each firing leaves. Times are whole
//! milliseconds, and nothing here waits.
#![tactic(auto)]

mod firing_queue;
mod running_timers;
pub mod schedule;
pub mod timer;

pub use schedule::Timers;
pub use timer::{RunningTimer, StartFiring};
