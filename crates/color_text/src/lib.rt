//! Colours as texts spell them: by hexadecimal digits, or by a name.
#![tactic(auto)]

mod digits;
pub mod spelled;
mod table;

pub use spelled::color_of;
