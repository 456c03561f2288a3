//! The laws of the canonical print, over the grammar alone: the canonical text of a document that some text
//! spells is itself a text of that document, apart from places; and documents that differ in places at most have
//! one canonical text.
#![tactic(auto)]

ghost use Rattle.std.specs.Prelude.{◌≡◌, ℕ, List};
ghost use Rattle.print_laws.specs.Laws.{SpellsAlike};
ghost use Rattle.qml_ast.specs.Alike.{IsAlike};
ghost use Rattle.qml_ast.specs.declared.document.Document.{Document};
ghost use Rattle.qml_grammar.specs.Canonical.{document_text};
ghost use Rattle.qml_tokens.specs.Spelled.{Spells};

/// The canonical text of a document that some text spells spells a document that differs from it in places at
/// most, and only such.
pub fn canonical_text_is_alike()
    ensures spelled { (bytes : List ℕ) (d : Document) → Spells bytes d → SpellsAlike (document_text d) d }
    ensures only { (bytes : List ℕ) (d other : Document) → Spells bytes d → Spells (document_text d) other → IsAlike d other }
{}

/// Documents that differ in places at most have one canonical text. So a canonical text that is parsed and printed
/// again comes out as it was.
pub fn alike_documents_have_one_text()
    ensures texts { (d other : Document) → IsAlike d other → document_text d ≡ document_text other }
    ensures again { (bytes : List ℕ) (d other : Document) → Spells bytes d → Spells (document_text d) other → document_text other ≡ document_text d }
{}
