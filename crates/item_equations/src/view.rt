use expr_eval::Reader;
use qml_ast::Place;

/// What the equations of items ask of a store beside the values of places. None of it changes within a
/// settle.
pub trait ItemReader: Reader {
    ghost use Rattle.std.specs.Prelude.{◌≡◌};
    ghost use Rattle.item_equations.specs.Family.{Family};

    ghost family: { Self → Family };

    /// The item in which an item stands. None of an object that is no item or stands in none.
    fn parent(&self, item: u64) -> Option<u64>
        ensures { result ≡ (family self.now).parent item };

    /// The objects that an object owns, in the order in which they were made.
    fn owned(&self, item: u64) -> &[u64]
        ensures { result.now ≡ (family self.now).owned item };

    /// Whether the slot of a place had an initialiser or a write.
    fn is_set(&self, place: Place) -> bool
        ensures { result ≡ (family self.now).is_set place };
}
