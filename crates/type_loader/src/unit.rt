ghost use Rattle.std.specs.Prelude.{◌<◌, length};

use qml_ast::{LoadFault, Name};
use qml_types::ComponentType;
use shared_value::Shared;
use sqlite_items::Items;

/// The component types of a document and of all documents that it mentions.
#[derive(Drop)]
pub struct Unit {
    /// The document's file.
    pub name: Name,
    /// The component types, the document's own first, and the others in the order in which the list of
    /// documents grew.
    pub components: Items<Shared<ComponentType>>,
    ghost some: { 0 < length components },
}

/// What came of a load.
#[derive(Drop)]
pub enum Arrival {
    /// The unit.
    Unit(Shared<Unit>),
    /// Why there is none.
    Fault(LoadFault),
}
