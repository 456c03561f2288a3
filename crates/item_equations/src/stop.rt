use qml_ast::Place;

/// Why an equation gives no value.
#[derive(Clone, Copy)]
pub enum Stop {
    /// Its value lies outside of the range of an `i32`.
    Overflow,
    /// The first place that it reads and that has no value yet.
    Needs(Place),
}
