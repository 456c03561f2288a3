//! What holds of all files and every script, whoever reads them. The functions do nothing; each one's
//! contract is a law.

ghost use Rattle.std.specs.Prelude.{◌≡◌, ℕ, List};
ghost use Rattle.outside.specs.Store.{Store};
ghost use Rattle.qml_ast.specs.declared.fault.LoadFault.{LoadFault};
ghost use Rattle.stage_run.specs.Documents.{HasRunUnit, HasFault};
ghost use Rattle.stage_run.specs.Script.{IsScript, IsFirstBadLine};
ghost use Rattle.stage_run.specs.Shown.{picture_of, notes_of};
ghost use Rattle.type_loader.specs.declared.unit.Unit.{Unit as UnitOf};

/// Told files show one picture of a main document and tell one list of notes, so the frames and the notes of a
/// run are a function of its files.
pub fn one_painting()
    ensures pictures { (files : Store) (main : List ℕ) (first second : UnitOf) → HasRunUnit files main first →
        HasRunUnit files main second → picture_of first ≡ picture_of second }
    ensures notes { (files : Store) (main : List ℕ) (first second : UnitOf) → HasRunUnit files main first →
        HasRunUnit files main second → notes_of first ≡ notes_of second }
{}

/// Told files have one fault of a main document at most, and none where its unit is run.
pub fn one_fault()
    ensures faults { (files : Store) (main : List ℕ) (first second : LoadFault) → HasFault files main first →
        HasFault files main second → first ≡ second }
    ensures apart { (files : Store) (main : List ℕ) (unit : UnitOf) (fault : LoadFault) → HasRunUnit files main unit →
        HasFault files main fault → ⊥ }
{}

/// One script has one number of commands, or one first bad line, and never both.
pub fn one_script()
    ensures counts { (bytes : List ℕ) (first second : ℕ) → IsScript bytes first → IsScript bytes second → first ≡ second }
    ensures lines { (bytes : List ℕ) (first second : ℕ) → IsFirstBadLine bytes first → IsFirstBadLine bytes second → first ≡ second }
    ensures apart { (bytes : List ℕ) (count number : ℕ) → IsScript bytes count → IsFirstBadLine bytes number → ⊥ }
{}
