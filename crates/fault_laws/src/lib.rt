//! Laws of the first fault: it depends on the tokens up to it alone. They stand on functions that do nothing,
//! so that a crate above can cite them by a call.
#![tactic(auto)]

ghost use Rattle.std.specs.Prelude.{◌≡◌, ℕ, List, ◌++◌, Err};
ghost use Rattle.fault_laws.specs.Faults.{FaultsNext, FaultsWithin, FirstFault};
ghost use Rattle.qml_ast.specs.declared.document.Document.{Document};
ghost use Rattle.qml_ast.specs.declared.fault.DocFault.{DocFault};
ghost use Rattle.qml_ast.specs.declared.span.Span.{Span};
ghost use Rattle.qml_grammar.specs.DocumentGrammar.{IsDocument};
ghost use Rattle.qml_grammar.specs.Documents.{under, value_in, object_in, member_in, imports, reading};
ghost use Rattle.qml_grammar.specs.Inputs.{Input};
ghost use Rattle.qml_grammar.specs.Lexemes.{Token, head};
ghost use Rattle.qml_grammar.specs.Statements.{statement};

/// The first fault of a statement stands at the next token, or at the end, and depends on it and the tokens
/// before it alone.
pub fn statement_faults()
    ensures { (d : ℕ) (i : Input) (e : DocFault) → statement d i ≡ Err e → FaultsNext (statement d) i e }
{}

/// The first fault of a document and of its parts depends on the tokens up to it alone, with two exceptions that
/// depend on the rest of a name with dots and on the token behind it: where such a name, of a type or a module, is
/// refused at its first token, and where the fault stands further on in a name whose first letter is upper case.
pub fn document_faults()
    ensures values { (d : ℕ) (i : Input) (e : DocFault) → value_in d (under d) i ≡ Err e → FaultsWithin (value_in d (under d)) i e }
    ensures objects { (d : ℕ) (i : Input) (e : DocFault) → object_in (under d) i ≡ Err e → FaultsWithin (object_in (under d)) i e }
    ensures members { (d : ℕ) (i : Input) (e : DocFault) → member_in d (under d) i ≡ Err e → FaultsWithin (member_in d (under d)) i e }
    ensures imports { (i : Input) (e : DocFault) → imports i ≡ Err e → FaultsWithin imports i e }
    ensures documents { (ts : List Token) (end : Span) (e : DocFault) → reading ts end ≡ Err e → FirstFault ts end e }
{}

/// No document begins with the tokens before the first fault and the one at which it shows.
pub fn no_document_begins_so()
    ensures { (ts : List Token) (end : Span) (e : DocFault) (first : FirstFault ts end e) (others : List Token) (x : Document) →
        head others ≡ head first.rest → IsDocument (first.text ++ others) x → ⊥ }
{}
