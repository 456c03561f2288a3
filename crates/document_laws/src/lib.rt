//! Laws of documents and their parts: what is read is spelled by the productions, and what the productions
//! spell is read. They stand on functions that do nothing, so that a crate above can cite them by a call.
#![tactic(auto)]

ghost use Rattle.std.specs.Prelude.{◌≡◌, ℕ, false, List, Ok};
ghost use Rattle.document_laws.specs.Laws.{IsValued, IsObjectBefore};
ghost use Rattle.qml_ast.specs.declared.decl.Decl.{Decl};
ghost use Rattle.qml_ast.specs.declared.decl.Member.{Member};
ghost use Rattle.qml_ast.specs.declared.document.Document.{Document};
ghost use Rattle.qml_ast.specs.declared.document.Import.{Import};
ghost use Rattle.qml_ast.specs.declared.span.Span.{Span};
ghost use Rattle.qml_grammar.specs.DocumentGrammar.{IsMember, AreImports, IsDocument};
ghost use Rattle.qml_grammar.specs.Documents.{Valued, under, value_in, object_in, member_in, imports, reading};
ghost use Rattle.qml_grammar.specs.Inputs.{Input, ahead};
ghost use Rattle.qml_grammar.specs.Lexemes.{Token, is_word};
ghost use Rattle.qml_grammar.specs.declared.word.Word.TheVariants.{Import as AsImport};
ghost use Rattle.statement_laws.specs.Laws.{Covers};

/// What is read as a value, an object, a member, imports or a document is spelled by the productions, with the
/// levels that are left.
pub fn reads_spelled()
    ensures values { (d : ℕ) (i j : Input) (x : Valued) → value_in d (under d) i ≡ Ok (x, j) → Covers (IsValued d) i j x }
    ensures objects { (d : ℕ) (i j : Input) (x : Decl) → object_in (under d) i ≡ Ok (x, j) → Covers (IsObjectBefore d) i j x }
    ensures members { (d : ℕ) (i j : Input) (xs : List Member) → member_in d (under d) i ≡ Ok (xs, j) → Covers (IsMember 200 d) i j xs }
    ensures imports { (i j : Input) (xs : List Import) → imports i ≡ Ok (xs, j) → Covers AreImports i j xs × (is_word AsImport (ahead j) ≡ false) }
    ensures documents { (ts : List Token) (end : Span) (x : Document) → reading ts end ≡ Ok x → IsDocument ts x }
{}

/// What the productions spell before the token that follows is read, with exactly this rest. So tokens spell one
/// document at most.
pub fn spelled_read()
    ensures values { (d : ℕ) (i j : Input) (x : Valued) → Covers (IsValued d) i j x → value_in d (under d) i ≡ Ok (x, j) }
    ensures objects { (d : ℕ) (i j : Input) (x : Decl) → Covers (IsObjectBefore d) i j x → object_in (under d) i ≡ Ok (x, j) }
    ensures members { (d : ℕ) (i j : Input) (xs : List Member) → Covers (IsMember 200 d) i j xs → member_in d (under d) i ≡ Ok (xs, j) }
    ensures imports { (i j : Input) (xs : List Import) → Covers AreImports i j xs → is_word AsImport (ahead j) ≡ false → imports i ≡ Ok (xs, j) }
    ensures documents { (ts : List Token) (end : Span) (x : Document) → IsDocument ts x → reading ts end ≡ Ok x }
    ensures once { (ts : List Token) (x y : Document) → IsDocument ts x → IsDocument ts y → x ≡ y }
{}
