//! Laws of statements: what is read is spelled by the productions, and what the productions spell is read.
//! They stand on functions that do nothing, so that a crate above can cite them by a call.
#![tactic(auto)]

ghost use Rattle.std.specs.Prelude.{◌≡◌, ℕ, true, List, Ok};
ghost use Rattle.statement_laws.specs.Laws.{Covers, IsBlockBefore};
ghost use Rattle.qml_ast.specs.declared.stmt.Stmt.{Stmt};
ghost use Rattle.qml_grammar.specs.Inputs.{Input, ahead};
ghost use Rattle.qml_grammar.specs.Lexemes.{is_mark};
ghost use Rattle.qml_grammar.specs.StatementGrammar.{IsStmt};
ghost use Rattle.qml_grammar.specs.Statements.{bodies, statement};
ghost use Rattle.qml_grammar.specs.declared.mark.Mark.TheVariants.{OpenBrace};

/// What is read as a statement, or as a block where a `{` begins it, is spelled by the productions with the
/// levels that are left, before the token that follows it.
pub fn reads_spelled()
    ensures stmts { (d : ℕ) (i j : Input) (x : Stmt) → statement d i ≡ Ok (x, j) → Covers (IsStmt 200 d) i j x }
    ensures blocks { (d : ℕ) (i j : Input) (xs : List Stmt) → is_mark OpenBrace (ahead i) ≡ true → (bodies d).block i ≡ Ok (xs, j) → Covers (IsBlockBefore d) i j xs }
{}

/// What the productions spell before the token that follows is read, with exactly this rest. So tokens spell
/// one statement at most, before what follows them.
pub fn spelled_read()
    ensures stmts { (d : ℕ) (i j : Input) (x : Stmt) → Covers (IsStmt 200 d) i j x → statement d i ≡ Ok (x, j) }
    ensures blocks { (d : ℕ) (i j : Input) (xs : List Stmt) → Covers (IsBlockBefore d) i j xs → (bodies d).block i ≡ Ok (xs, j) }
    ensures once { (d : ℕ) (i j k : Input) (x y : Stmt) → Covers (IsStmt 200 d) i j x → Covers (IsStmt 200 d) i k y → (x ≡ y) × (j ≡ k) }
{}
