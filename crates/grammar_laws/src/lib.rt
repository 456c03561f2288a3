//! Laws of the grammar of QML: what is read is spelled by the productions, what the productions spell is read,
//! and the first fault stands at the first token that cannot stand there. They stand on functions that do
//! nothing, so that a crate above can cite them by a call.
#![tactic(auto)]

ghost use Rattle.std.specs.Prelude.{◌≡◌, ℕ, Ok, Err};
ghost use Rattle.grammar_laws.specs.Faults.{FaultsAt, IsLike};
ghost use Rattle.grammar_laws.specs.Laws.{Way, Reads, ReadsWhole};
ghost use Rattle.qml_ast.specs.declared.expr.Expr.{Expr};
ghost use Rattle.qml_ast.specs.declared.fault.DocFault.{DocFault};
ghost use Rattle.qml_grammar.specs.ExpressionGrammar.{IsExpr};
ghost use Rattle.qml_grammar.specs.Expressions.{expr, whole};
ghost use Rattle.qml_grammar.specs.Inputs.{Input};

/// What is read as an expression, inside another one or outermost, is spelled by the productions with the
/// levels that are left and as many nodes as were used, and is read to its end: no operator, `?`, `.` or `(`
/// follows it.
pub fn reads_spelled()
    ensures inside { (d : ℕ) (i j : Input) (x : Expr) → expr d i ≡ Ok (x, j) → Reads d i j x }
    ensures outermost { (d : ℕ) (i j : Input) (x : Expr) → whole d i ≡ Ok (x, j) → ReadsWhole d i j x }
{}

/// What the productions spell, before a token that does not go on with it, is read, with exactly this rest and
/// as many nodes used. So tokens spell one expression at most, before what follows them.
pub fn spelled_read()
    ensures inside { (d : ℕ) (i j : Input) (x : Expr) → Reads d i j x → expr d i ≡ Ok (x, j) }
    ensures outermost { (d : ℕ) (i j : Input) (x : Expr) → ReadsWhole d i j x → whole d i ≡ Ok (x, j) }
    ensures once { (d : ℕ) (i j k : Input) (x y : Expr) → Reads d i j x → Reads d i k y → (x ≡ y) × (j ≡ k) }
{}

/// The first fault stands at the first token, or the end, that no expression can have there: the tokens before
/// it can go on to an expression of as many levels, the fault is the same whatever follows its token, and no
/// expression of the levels and nodes that are left begins with the tokens through it.
pub fn fault_is_first()
    ensures inside { (d : ℕ) (i : Input) (e : DocFault) → expr d i ≡ Err e → FaultsAt (IsExpr d) (expr d) i e }
    ensures outermost { (d : ℕ) (i : Input) (e : DocFault) → whole d i ≡ Err e → FaultsAt (IsExpr d) (whole d) i e }
    ensures hopeless { (d : ℕ) (i : Input) (e : DocFault) (fault : FaultsAt (IsExpr d) (expr d) i e) (k l m : Input) (x : Expr) →
        Way k l fault.nodes fault.text → IsLike l fault.at → Reads d k m x → ⊥ }
    ensures hopeless_outermost { (d : ℕ) (i : Input) (e : DocFault) (fault : FaultsAt (IsExpr d) (whole d) i e) (k l m : Input) (x : Expr) →
        Way k l fault.nodes fault.text → IsLike l fault.at → ReadsWhole d k m x → ⊥ }
{}
