//! What holds of all files, whoever loads them. The function does nothing; its contract is a law.

ghost use Rattle.std.specs.Prelude.{◌≡◌, ℕ, List};
ghost use Rattle.outside.specs.Store.{Store};
ghost use Rattle.qml_ast.specs.declared.fault.LoadFault.{LoadFault};
ghost use Rattle.type_loader.specs.Units.{HasUnit, HasUnitFault};
ghost use Rattle.type_loader.specs.declared.unit.Unit.{Unit as UnitOf};

/// Told files have one unit of a file at most, one fault at most in its place, and never both.
pub fn one_answer()
    ensures units { (files : Store) (file : List ℕ) (a b : UnitOf) → HasUnit files file a → HasUnit files file b → (a.name ≡ b.name) × (a.components ≡ b.components) }
    ensures faults { (files : Store) (file : List ℕ) (e f : LoadFault) → HasUnitFault files file e → HasUnitFault files file f → e ≡ f }
    ensures apart { (files : Store) (file : List ℕ) (unit : UnitOf) (fault : LoadFault) → HasUnit files file unit → HasUnitFault files file fault → ⊥ }
{}
