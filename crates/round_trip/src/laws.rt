//! What holds of every printed document, whoever parses it. The function does nothing; its contract is a
//! law.

ghost use Rattle.std.specs.Prelude.{◌≡◌, ℕ, List, Result, IfOk, IfErr};
ghost use Rattle.qml_ast.specs.Alike.{IsAlike};
ghost use Rattle.qml_ast.specs.declared.document.Document.{Document};
ghost use Rattle.qml_ast.specs.declared.fault.DocFault.{DocFault};
ghost use Rattle.qml_ast.specs.declared.fault.DocFault.TheVariants.{NoMemory};
ghost use Rattle.qml_grammar.specs.Canonical.{document_text};
ghost use Rattle.qml_tokens.specs.Spelled.{Spells};
ghost use Rattle.round_trip.specs.Answers.{IsComplete};

/// Where a text spells a document, the document's canonical text is answered by a document that differs from
/// it in places at most, or memory runs out. This holds of every answer that is complete, as `parse`'s are.
pub fn printed_documents_come_back()
    ensures { (text bytes : List ℕ) (d : Document) (answer : Result Document DocFault) →
        Spells text d → bytes ≡ document_text d → IsComplete bytes answer →
        IfOk answer (IsAlike d) × IfErr answer (λ fault. fault ≡ NoMemory) }
{}
