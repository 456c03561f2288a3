/// A built-in type.
#[derive(Clone, Copy, PartialEq, Eq)]
pub enum BuiltIn {
    /// An object without a place on the screen.
    QtObject,
    /// A rectangle of the screen that shows nothing by itself.
    Item,
    /// An item that shows a colour and a border.
    Rectangle,
    /// An item that puts its children side by side.
    Row,
    /// An item that puts its children one below the other.
    Column,
    /// An item that takes the mouse.
    MouseArea,
    /// A timer.
    Timer,
    /// An item that makes another one from a document or a component.
    Loader,
    /// A declaration of objects that are made later.
    Component,
}
