use item_equations::Progress;
use qml_ast::Place;

/// An evaluation that stopped at a place without a value, and goes on from there once control is back at it.
#[derive(Clone, Copy)]
pub(crate) struct Waiting {
    pub(crate) place: Place,
    /// How far it had come.
    pub(crate) progress: Progress,
}
