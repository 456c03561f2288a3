ghost use Rattle.std.specs.Prelude.{◌≡◌, option_copied};
ghost use Rattle.qml_grammar.specs.Ends as spec;
ghost use Rattle.qml_grammar.specs.Inputs as inputs;
ghost use Rattle.qml_grammar.specs.Lexemes as lexemes;
ghost use Rattle.qml_grammar.specs.Lexemes.{last_of, same_line};
ghost use Rattle.qml_expr.specs.Readings.{IsReading};
ghost use Rattle.qml_expr.specs.Seen.{input_of, tokens_of};
ghost use Rattle.qml_stmt.specs.Seen.{seen};

use qml_ast::DocFault;
use qml_expr::{Cursor, Token};
use qml_grammar::Mark;

/// The tokens that were read, where `before` were left then and `now` are left.
pub(crate) fn since<'a>(before: &'a [Token], now: &[Token]) -> &'a [Token]
    ensures { tokens_of result.now ≡ spec.since (tokens_of before.now) (tokens_of now.now) }
{
    &before[..before.len().saturating_sub(now.len())]
}

/// The last of the tokens, if there is one.
pub(crate) fn last_of(tokens: &[Token]) -> Option<&Token>
    ensures { seen (option_copied result) ≡ last_of (tokens_of tokens.now) }
{
    tokens.last()
}

/// Whether the cursor's next token begins on the line of `last`.
#[tactic(auto, unfolding(qml_expr::specs::Seen::input_of))]
pub(crate) fn is_on_line_of(last: Option<&Token>, cursor: &Cursor<'_>) -> bool
    ensures { result ≡ same_line (seen (option_copied last.entry)) (inputs.ahead (input_of cursor.now)) }
{
    match (last, cursor.rest) {
        (Some(last), [next, ..]) => last.span.line == next.span.line,
        _ => false,
    }
}

// Whether a token is the mark.
fn is_mark(token: Option<&Token>, mark: Mark) -> bool
    ensures { result ≡ lexemes.is_mark mark (seen (option_copied token.entry)) }
{
    match token {
        Some(token) => token.lexeme.is_mark(mark),
        None => false,
    }
}

// Whether no `;` is wanted between `last` and the cursor's next token.
#[tactic(auto, unfolding(qml_expr::specs::Seen::input_of))]
fn may_end(last: Option<&Token>, cursor: &Cursor<'_>) -> bool
    ensures { result ≡ spec.may_end (seen (option_copied last.entry)) (inputs.ahead (input_of cursor.now)) }
{
    cursor.rest.is_empty()
        || cursor.sees(Mark::CloseBrace)
        || !is_on_line_of(last, cursor)
        || is_mark(last, Mark::CloseBrace)
        || is_mark(last, Mark::Semicolon)
}

// `;`, or nothing where none is wanted behind `last`.
#[tactic(auto, unfolding(qml_grammar::specs::Ends::end_behind))]
fn end_behind(last: Option<&Token>, cursor: &mut Cursor<'_>) -> Result<(), DocFault>
    ensures { IsReading (spec.end_behind (seen (option_copied last.entry)) (input_of cursor.old)) result (input_of cursor.new) }
{
    if cursor.sees(Mark::Semicolon) {
        cursor.skip();
        return Ok(());
    }
    if !may_end(last, cursor) {
        return Err(cursor.refusal());
    }
    Ok(())
}

/// Reads the end of a statement or a member, which was read since the tokens `before` were left: `;`, or
/// nothing where no token is left, the next one is `}` or begins on another line than the last one that
/// was read, or the last one is `}` or `;`. Else the fault is the refusal of the next token: `Unsupported`
/// at `[` and at a decimal number, and `Syntax` at all others.
#[tactic(auto, unfolding(qml_expr::specs::Seen::input_of))]
pub fn end(before: &[Token], cursor: &mut Cursor<'_>) -> Result<(), DocFault>
    ensures { IsReading (spec.end_behind (last_of (spec.since (tokens_of before.now) (input_of cursor.old).rest)) (input_of cursor.old)) result (input_of cursor.new) }
{
    let last = last_of(since(before, cursor.rest));
    end_behind(last, cursor)
}
