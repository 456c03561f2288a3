ghost use Rattle.std.specs.Prelude.{◌≡◌, option_copied};
ghost use Rattle.qml_grammar.specs.Inputs as inputs;
ghost use Rattle.qml_grammar.specs.Lexemes as lexemes;
ghost use Rattle.qml_grammar.specs.Lexemes.{looked_up};
ghost use Rattle.qml_grammar.specs.StatementGrammar as grammar;
ghost use Rattle.qml_grammar.specs.Statements as spec;
ghost use Rattle.qml_expr.specs.Seen.{input_of, tokens_of};
ghost use Rattle.qml_stmt.specs.Seen.{seen};

use crate::ends::is_on_line_of;
use qml_ast::{AssignOp, LocalWord};
use qml_expr::{Cursor, Lexeme, Token};
use qml_grammar::{Mark, Word};

/// The word that declares a local, if the next token is one.
#[tactic(auto, unfolding(qml_expr::specs::Seen::input_of))]
pub(crate) fn local_word(cursor: &Cursor<'_>) -> Option<LocalWord>
    ensures { result ≡ lexemes.local_word_of (inputs.ahead (input_of cursor.now)) }
{
    match cursor.rest {
        [token, ..] => match token.lexeme {
            Lexeme::Word(Word::Var) => Some(LocalWord::Var),
            Lexeme::Word(Word::Let) => Some(LocalWord::Let),
            Lexeme::Word(Word::Const) => Some(LocalWord::Const),
            _ => None,
        },
        [] => None,
    }
}

/// The mark of an assignment, if the next token is one.
#[tactic(auto, unfolding(qml_expr::specs::Seen::input_of))]
pub(crate) fn assign_operator(cursor: &Cursor<'_>) -> Option<AssignOp>
    ensures { result ≡ looked_up lexemes.assign_operator (inputs.ahead (input_of cursor.now)) }
{
    match cursor.rest {
        [token, ..] => match token.lexeme {
            Lexeme::Mark(Mark::Equal) => Some(AssignOp::Set),
            Lexeme::Mark(Mark::PlusEqual) => Some(AssignOp::Add),
            Lexeme::Mark(Mark::MinusEqual) => Some(AssignOp::Sub),
            Lexeme::Mark(Mark::StarEqual) => Some(AssignOp::Mul),
            Lexeme::Mark(Mark::SlashEqual) => Some(AssignOp::Div),
            _ => None,
        },
        [] => None,
    }
}

/// Whether the next token counts up, if it is `++` or `--`.
#[tactic(auto, unfolding(qml_expr::specs::Seen::input_of))]
pub(crate) fn step_operator(cursor: &Cursor<'_>) -> Option<bool>
    ensures { result ≡ looked_up lexemes.step_operator (inputs.ahead (input_of cursor.now)) }
{
    match cursor.rest {
        [token, ..] => match token.lexeme {
            Lexeme::Mark(Mark::DoublePlus) => Some(true),
            Lexeme::Mark(Mark::DoubleMinus) => Some(false),
            _ => None,
        },
        [] => None,
    }
}

/// Whether the next token changes a target whose last token is `last`.
pub(crate) fn changes_on(last: Option<&Token>, cursor: &Cursor<'_>) -> bool
    ensures { result ≡ grammar.changes_on (seen (option_copied last.entry)) (inputs.ahead (input_of cursor.now)) }
{
    assign_operator(cursor).is_some()
        || (step_operator(cursor).is_some() && is_on_line_of(last, cursor))
}

/// Whether a statement begins with the next token.
pub(crate) fn begins_statement(cursor: &Cursor<'_>) -> bool
    ensures { result ≡ spec.begins_statement (inputs.ahead (input_of cursor.now)) }
{
    cursor.sees(Mark::OpenBrace)
        || cursor.sees(Mark::Semicolon)
        || begins_by_word(cursor)
        || begins_expr(cursor)
}

// Whether the next token is a word, other than a literal, that begins a statement.
fn begins_by_word(cursor: &Cursor<'_>) -> bool
    ensures { result ≡ spec.begins_by_word (inputs.ahead (input_of cursor.now)) }
{
    local_word(cursor).is_some()
        || cursor.sees_word(Word::If)
        || cursor.sees_word(Word::While)
        || cursor.sees_word(Word::For)
        || cursor.sees_word(Word::Return)
}

// Whether an expression begins with the next token.
fn begins_expr(cursor: &Cursor<'_>) -> bool
    ensures { result ≡ spec.begins_expr (inputs.ahead (input_of cursor.now)) }
{
    cursor.sees_atom() || cursor.sees(Mark::OpenParen) || cursor.unary_operator().is_some()
}

/// Whether there is a next token, and it is not `}`.
#[tactic(auto, unfolding(qml_expr::specs::Seen::input_of))]
pub(crate) fn goes_on_inside(cursor: &Cursor<'_>) -> bool
    ensures { result ≡ spec.goes_on_inside (inputs.ahead (input_of cursor.now)) }
{
    !cursor.rest.is_empty() && !cursor.sees(Mark::CloseBrace)
}

/// Whether the tokens, with which a statement began, are a target: a name, and members behind it.
pub(crate) fn is_target(tokens: &[Token]) -> bool
    ensures { result ≡ spec.is_target (tokens_of tokens.now) }
{
    match tokens {
        [first, members @ ..] => first.lexeme.is_operand_name() && are_members(members),
        [] => false,
    }
}

// Whether the tokens are dots with names behind them.
fn are_members(tokens: &[Token]) -> bool
    ensures { result ≡ spec.are_members (tokens_of tokens.now) }
{
    let mut rest = tokens;
    while let [dot, name, behind @ ..] = rest {
        if !(dot.lexeme.is_mark(Mark::Dot) && name.lexeme.is_name()) {
            return false;
        }
        rest = behind;
    }
    rest.is_empty()
}
