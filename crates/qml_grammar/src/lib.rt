//! The grammar of QML documents: the marks and words that their tokens are seen by, and the definitions
//! that the parser, its laws and the canonical print stand on. Contracts above read a document as a list
//! of tokens, and cite what the list spells and where its first fault stands.
#![tactic(auto)]

pub mod cases;
pub mod mark;
pub mod word;

pub use mark::Mark;
pub use word::Word;
