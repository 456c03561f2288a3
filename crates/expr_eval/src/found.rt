use qml_ast::Place;

/// Where the names of an expression are looked up.
#[derive(Clone, Copy, PartialEq, Eq)]
pub struct Frame {
    /// The number of the context: one making of one component.
    pub context: u64,
    /// The serial of the object that the expression stands in.
    pub scope: u64,
}

/// A group of an object's slots.
#[derive(Clone, Copy, PartialEq, Eq)]
pub enum GroupName {
    Anchors,
    Border,
    ChildrenRect,
}

/// A name that is known everywhere.
#[derive(Clone, Copy, PartialEq, Eq)]
pub enum GlobalName {
    Qt,
    Math,
    Console,
    Loader,
}

/// What a name stands for.
#[derive(Clone, Copy)]
pub enum Found {
    Place(Place),
    /// An object's serial, or 0 for an object that is no more.
    Object(u64),
    /// A group of the object of that serial.
    Group(u64, GroupName),
    /// A method of the object of that serial, and its number there.
    Method(u64, u32),
    /// A signal of the object of that serial, and its number there.
    Signal(u64, u32),
    Global(GlobalName),
    /// Nothing has that name.
    None,
}
