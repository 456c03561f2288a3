//! What holds of every text, whoever reads it. The function does nothing; its contract is a law.

ghost use Rattle.std.specs.Prelude.{◌≡◌, ◌≢◌, ℕ, List};
ghost use Rattle.qml_ast.specs.declared.document.Document.{Document};
ghost use Rattle.qml_ast.specs.declared.fault.DocFault.{DocFault};
ghost use Rattle.qml_ast.specs.declared.fault.DocFault.TheVariants.{NoMemory};
ghost use Rattle.qml_tokens.specs.Spelled.{Spells, HasFault};

/// A text spells one document at most, has one fault at most beside NoMemory, and never both.
pub fn one_reading()
    ensures documents { (bytes : List ℕ) (a b : Document) → Spells bytes a → Spells bytes b → a ≡ b }
    ensures faults { (bytes : List ℕ) (e f : DocFault) → HasFault bytes e → HasFault bytes f → e ≢ NoMemory → f ≢ NoMemory → e ≡ f }
    ensures apart { (bytes : List ℕ) (d : Document) (e : DocFault) → Spells bytes d → HasFault bytes e → e ≡ NoMemory }
{}
