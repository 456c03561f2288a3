use crate::names::Names;
use crate::property::Property;
use crate::row::Row;
use qml_types::ComponentType;
use shared_value::Shared;
use type_table::BuiltIn;

/// An object.
#[derive(Clone, Copy, PartialEq, Eq)]
pub struct Object {
    /// Its number, from 1 on in the order in which objects are made.
    pub serial: u64,
    /// The object that owns it; none for a content item.
    pub parent: Option<u64>,
}

/// What a declared name of an object stands for.
#[derive(Clone, Copy, PartialEq, Eq)]
pub enum Feature {
    /// The slot of that number.
    Slot(u32),
    /// The signal of that number. Those of the built-in type come first.
    Signal(u32),
    /// The method of that number. Those of the built-in type come first.
    Method(u32),
}

/// What one component declares of an object.
#[derive(Drop)]
pub struct Layer {
    pub component: Shared<ComponentType>,
    /// The object's number in the component.
    pub index: u32,
    /// The number of the context.
    pub context: u64,
}

/// An object with all that it has.
#[derive(Drop)]
pub struct Instance {
    pub object: Object,
    pub built_in: BuiltIn,
    /// How many objects own it, one another's owners counted.
    pub depth: u32,
    /// What documents declare of it, the innermost document's part first.
    pub layers: Row<Layer>,
    /// What declared names stand for.
    pub names: Names<Feature>,
    /// How many signals and methods it has.
    pub signals: u32,
    pub methods: u32,
    /// The item in which it stands as a visual child; none where it is no item, or no visual child.
    pub item_parent: Option<u64>,
    /// The objects that it owns, in the order in which they were made.
    pub children: Row<u64>,
    /// Its slots: those of the built-in type, and then those that documents declare.
    pub properties: Row<Property>,
}
