//! The viable prefix property: what stands before the first fault can go on to something that the productions
//! spell. It stands on a function that does nothing, so that a crate above can cite it by a call.
#![tactic(auto)]

ghost use Rattle.std.specs.Prelude.{◌≡◌, ℕ, List, Err};
ghost use Rattle.prefix_laws.specs.Prefixes.{FaultsBehind, IsStmtPrefix, PrefixBeforeFault};
ghost use Rattle.qml_ast.specs.declared.fault.DocFault.{DocFault};
ghost use Rattle.qml_ast.specs.declared.span.Span.{Span};
ghost use Rattle.qml_grammar.specs.Documents.{reading};
ghost use Rattle.qml_grammar.specs.Inputs.{Input};
ghost use Rattle.qml_grammar.specs.Lexemes.{Token};
ghost use Rattle.qml_grammar.specs.Statements.{statement};

/// The tokens before the first fault of a statement or of a document can go on, if nodes are not counted and one
/// level more may be opened. The one exception is a fault behind a dot that follows a module's name, as at the `5`
/// of `import QtQuick . 5`: with any name behind the dot the module would be another one. The tokens before such
/// a dot can go on.
pub fn prefixes_are_viable()
    ensures statements { (d : ℕ) (i : Input) (e : DocFault) → statement d i ≡ Err e → FaultsBehind (IsStmtPrefix d) i e }
    ensures documents { (ts : List Token) (end : Span) (e : DocFault) → reading ts end ≡ Err e → PrefixBeforeFault ts end e }
{}
