use qml_ast::Name;
use qml_types::ComponentType;
use shared_value::Shared;

/// A component type that was made of a document.
#[derive(Drop)]
pub struct Made {
    /// The name of the type that the document is.
    pub name: Name,
    /// What the document declares.
    pub component: Shared<ComponentType>,
}
