use qml_ast::{Document, Name};
use qml_types::Mention;
use shared_value::Shared;
use sqlite_items::Items;

/// A document of a list that is being read.
#[derive(Drop)]
pub struct Source {
    /// The name of the type that it is.
    pub name: Name,
    /// Its file.
    pub file: Name,
    /// What the file spells.
    pub document: Shared<Document>,
    /// The types that it mentions, by first mention.
    pub mentions: Items<Mention>,
}
