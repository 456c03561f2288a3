ghost use Rattle.std.specs.Prelude.{◌≡◌};
ghost use Rattle.qml_grammar.specs.Documents as spec;
ghost use Rattle.qml_expr.specs.Seen.{input_of, tokens_of};
ghost use Rattle.qml_parse.specs.Values.{IsReadingValue};

use qml_ast::{DocFault, Expr, Init, Span};
use qml_expr::{Cursor, Token, whole_expression};
use qml_grammar::Mark;
use shared_value::Shared;
use sqlite_items::Boxed;
use std::alloc::Global;

/// An initialiser's value and its place.
#[derive(Drop)]
pub(crate) struct Valued {
    pub init: Boxed<Init>,
    /// The place of a literal, inside its parentheses, and else of the value's first token.
    pub span: Span,
}

// Whether an expression is a literal alone.
fn is_literal(value: &Expr) -> bool
    ensures { result ≡ spec.is_literal value.now }
{
    matches!(value, Expr::Lit(_))
}

// Where the first of the tokens begins, or else another place.
fn place_of(tokens: &[Token], end: Span) -> Span
    ensures { result ≡ spec.place_of (tokens_of tokens.now) end }
{
    match tokens {
        [token, ..] => token.span,
        [] => end,
    }
}

// The tokens behind the parentheses that they begin with.
fn behind_parens(tokens: &[Token]) -> &[Token]
    ensures { tokens_of result.now ≡ spec.behind_parens (tokens_of tokens.now) }
{
    let mut rest = tokens;
    while let [token, behind @ ..] = rest {
        if !token.lexeme.is_mark(Mark::OpenParen) {
            break;
        }
        rest = behind;
    }
    rest
}

// The place of an expression that the tokens begin with: of its literal, or else of its first token.
fn value_place(value: &Expr, tokens: &[Token], end: Span) -> Span
    ensures { result ≡ spec.value_place value.now (tokens_of tokens.now) end }
{
    if is_literal(value) {
        place_of(behind_parens(tokens), end)
    } else {
        place_of(tokens, end)
    }
}

/// An expression as an initialiser's value.
#[tactic(auto, unfolding(qml_grammar::specs::Documents::expr_value, qml_expr::specs::Seen::input_of))]
pub(crate) fn expr_value(
    alloc: Global,
    levels: usize,
    cursor: &mut Cursor<'_>,
) -> Result<Valued, DocFault>
    ensures { IsReadingValue (spec.expr_value levels (input_of cursor.old)) result (input_of cursor.new) }
{
    let before = cursor.rest;
    let last = cursor.end;
    let value = whole_expression(alloc, levels, cursor)?;
    let span = value_place(value.get(), before, last);
    let value = Shared::new(alloc, value.into_inner())?;
    let init = Boxed::new(alloc, Init::Expr(value))?;
    Ok(Valued { init, span })
}
