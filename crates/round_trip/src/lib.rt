//! Documents that are printed and parsed again: they come back as they were, apart from places.
#![tactic(auto)]

pub mod laws;
pub mod trip;

pub use laws::printed_documents_come_back;
pub use trip::print_and_parse;
