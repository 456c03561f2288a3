//! What holds of all equations of items. The function does nothing; its contract is the law.

ghost use Rattle.std.specs.Prelude.{◌≡◌, ℕ};
ghost use Rattle.qml_ast.specs.declared.place.Place.{Place};
ghost use Rattle.qml_ast.specs.declared.value.Value.{Value};
ghost use Rattle.settling.specs.Runs.{answer};
ghost use Rattle.item_equations.specs.Asking.{as_tree};
ghost use Rattle.item_equations.specs.Family.{Family};
ghost use Rattle.item_equations.specs.Native.{equation};
ghost use Rattle.item_equations.specs.Values.{value_shown};
ghost use Rattle.item_equations.specs.declared.native.Native.{Native};

/// Where all places have a value, an equation comes to what it says of these values: what it reads, and in which
/// order, has no part in it.
pub fn equations_say_what_is_shown()
    ensures { (family : Family) (values : Place → Value) (read : Value → Value) (native : Native) (item : ℕ)
        → answer (as_tree read (equation family native item)) values
        ≡ value_shown family (λ place. read (values place)) native item }
{}
