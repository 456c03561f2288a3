ghost use Rattle.std.specs.Prelude.{ℕ, Bool, List};
ghost use Rattle.qml_ast.specs.declared.expr.Expr.{Expr};
ghost use Rattle.qml_ast.specs.declared.place.Place.{Place};
ghost use Rattle.qml_ast.specs.declared.value.Value.{Value};
ghost use Rattle.expr_eval.specs.Meanings.{Meanings};
ghost use Rattle.expr_eval.specs.Needs.{StopsAtFirstUnclean};
ghost use Rattle.expr_eval.specs.Shapes.{Shape};
ghost use Rattle.expr_eval.specs.Trees.{Tree};
ghost use Rattle.expr_eval.specs.Walks.{WalksAsEvaluated, AnswersAsEvaluated};
ghost use Rattle.expr_eval.specs.declared.found.Frame.{Frame};
ghost use Rattle.expr_eval.specs.declared.locals.NamedLocal.{NamedLocal};

/// What `eval` answers where some places have no value yet, against what it answers once all have theirs.
///
/// Whatever those values will be: a value or a fault is the one over all values, and the trace is its reads.
/// Where a place is needed, it is the first read place that has no value yet, and the trace is the reads
/// before it. So an evaluation that begins again, after the place it needed has its value, reads the same
/// places up to that one.
pub fn stops_at_first_unclean()
    ensures { (clean : Place → Bool) (means : Meanings) (settled : Place → Value) (e : Expr) (frame : Frame) (locals : List NamedLocal) →
        StopsAtFirstUnclean clean means settled e frame locals }
{}

/// A walk through an expression's tree comes to what its evaluation comes to, whichever places have their values
/// already: it goes on with the same value, or ends with the same fault, or needs the same place. It passes the
/// places that the evaluation notes.
pub fn walks_as_evaluated()
    ensures { (clean : Place → Bool) (shape : Shape) (values : Place → Value) (e : Expr) (frame : Frame) (locals : List NamedLocal) (go : Value → Tree) →
        WalksAsEvaluated clean shape values e frame locals go }
{}

/// Where each place has its value, the tree's answer is the expression's value or fault, and its reads are the
/// expression's.
pub fn answers_as_evaluated()
    ensures { (shape : Shape) (values : Place → Value) (e : Expr) (frame : Frame) (locals : List NamedLocal) (go : Value → Tree) →
        AnswersAsEvaluated shape values e frame locals go }
{}
