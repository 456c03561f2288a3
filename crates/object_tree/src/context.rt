use crate::names::Names;
use crate::row::Row;
use qml_types::ComponentType;
use shared_value::Shared;

/// One making of one component.
#[derive(Drop)]
pub struct Context {
    pub component: Shared<ComponentType>,
    /// The context round an inline component.
    pub around: Option<u64>,
    /// The serials of the component's objects, in the component's order.
    pub serials: Row<u64>,
    /// The serials of those that have an id.
    pub ids: Names<u64>,
}
