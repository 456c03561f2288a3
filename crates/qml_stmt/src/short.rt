ghost use Rattle.std.specs.Prelude.{◌≡◌, option_copied};
ghost use Rattle.qml_grammar.specs.Ends.{ended};
ghost use Rattle.qml_grammar.specs.Inputs as inputs;
ghost use Rattle.qml_grammar.specs.Inputs.{refused};
ghost use Rattle.qml_grammar.specs.Lexemes as lexemes;
ghost use Rattle.qml_grammar.specs.Statements as spec;
ghost use Rattle.qml_expr.specs.Readings.{IsReading};
ghost use Rattle.qml_expr.specs.Seen.{input_of, tokens_of};
ghost use Rattle.qml_stmt.specs.Seen.{seen};

use crate::ends::{end, is_on_line_of, last_of, since};
use crate::lookahead::{assign_operator, changes_on, is_target, step_operator};
use qml_ast::{AssignOp, DocFault, Expr, LocalWord, Stmt};
use qml_expr::{Cursor, MAX_NODES, Token, member, whole_expression};
use qml_grammar::{Mark, Word};
use sqlite_items::Boxed;
use std::alloc::Global;

/// The expression of a box, where there is one.
pub(crate) fn unboxed(value: Option<Boxed<Expr>>) -> Option<Expr>
    ensures { result ≡ value }
{
    match value {
        Some(value) => Some(value.into_inner()),
        None => None,
    }
}

// Targets and their changes

// The fault at a token with which no target begins: the one that it has where an expression should begin, but that
// a `{` is Syntax, as QML has none there either.
#[tactic(auto, unfolding(qml_grammar::specs::Statements::no_target))]
fn no_target(cursor: &Cursor<'_>) -> Result<Boxed<Expr>, DocFault>
    ensures { IsReading (spec.no_target (input_of cursor.now)) result (input_of cursor.now) }
{
    if cursor.sees(Mark::OpenBrace) {
        Err(cursor.refusal())
    } else {
        Err(cursor.operand_refusal())
    }
}

// The first name of a target.
#[tactic(auto, unfolding(qml_grammar::specs::Statements::target_name))]
fn target_name(alloc: Global, cursor: &mut Cursor<'_>) -> Result<Boxed<Expr>, DocFault>
    ensures { IsReading (spec.target_name (input_of cursor.old)) result (input_of cursor.new) }
{
    match cursor.operand_name(alloc)? {
        Some(name) => {
            let target = Boxed::new(alloc, Expr::Name(name))?;
            cursor.take_node()?;
            Ok(target)
        }
        None => no_target(cursor),
    }
}

// A target, of no more nodes than the cursor allows.
fn target_in(alloc: Global, cursor: &mut Cursor<'_>) -> Result<Boxed<Expr>, DocFault>
    ensures { IsReading (spec.target_in (input_of cursor.old)) result (input_of cursor.new) }
{
    let mut read = target_name(alloc, cursor)?;
    // Each turn takes a token.
    for _turn in 0..cursor.left() {
        if !cursor.sees(Mark::Dot) {
            return Ok(read);
        }
        read = member(alloc, read, cursor)?;
    }
    Ok(read)
}

// A target alone.
#[tactic(auto, unfolding(qml_grammar::specs::Statements::target, qml_expr::specs::Seen::input_of))]
fn target(alloc: Global, cursor: &mut Cursor<'_>) -> Result<Boxed<Expr>, DocFault>
    ensures { IsReading (spec.target (input_of cursor.old)) result (input_of cursor.new) }
{
    let nodes = cursor.nodes;
    cursor.nodes = MAX_NODES;
    let read = target_in(alloc, cursor)?;
    cursor.nodes = nodes;
    Ok(read)
}

// The mark of an assignment and an expression, behind the target.
#[tactic(auto, unfolding(qml_grammar::specs::Statements::assigned))]
fn assigned(
    alloc: Global,
    levels: usize,
    target: Boxed<Expr>,
    operator: AssignOp,
    cursor: &mut Cursor<'_>,
) -> Result<Boxed<Stmt>, DocFault>
    ensures { IsReading (spec.assigned levels target operator (input_of cursor.old)) result (input_of cursor.new) }
{
    cursor.skip();
    let value = whole_expression(alloc, levels, cursor)?;
    let stmt = Stmt::Assign(target.into_inner(), operator, value.into_inner());
    Ok(Boxed::new(alloc, stmt)?)
}

// `++` or `--`, behind the target.
#[tactic(auto, unfolding(qml_grammar::specs::Statements::stepped))]
fn stepped(
    alloc: Global,
    target: Boxed<Expr>,
    up: bool,
    cursor: &mut Cursor<'_>,
) -> Result<Boxed<Stmt>, DocFault>
    ensures { IsReading (spec.stepped target up (input_of cursor.old)) result (input_of cursor.new) }
{
    cursor.skip();
    Ok(Boxed::new(alloc, Stmt::Step(target.into_inner(), up))?)
}

// What changes a target, behind it. `last` is the target's last token.
#[tactic(auto, unfolding(qml_grammar::specs::Statements::change_or, qml_grammar::specs::Statements::step_or))]
fn change(
    alloc: Global,
    levels: usize,
    target: Boxed<Expr>,
    last: Option<&Token>,
    cursor: &mut Cursor<'_>,
) -> Result<Boxed<Stmt>, DocFault>
    ensures { IsReading (spec.change_or refused levels target (seen (option_copied last.entry)) (input_of cursor.old)) result (input_of cursor.new) }
{
    if let Some(operator) = assign_operator(cursor) {
        return assigned(alloc, levels, target, operator, cursor);
    }
    match step_operator(cursor) {
        Some(up) if is_on_line_of(last, cursor) => stepped(alloc, target, up, cursor),
        _ => Err(cursor.refusal()),
    }
}

// Statements with an end

// `=` and an expression, or nothing.
#[tactic(auto, unfolding(qml_grammar::specs::Statements::initial))]
fn initial(
    alloc: Global,
    levels: usize,
    cursor: &mut Cursor<'_>,
) -> Result<Option<Boxed<Expr>>, DocFault>
    ensures { IsReading (spec.initial levels (input_of cursor.old)) result (input_of cursor.new) }
{
    if !cursor.sees(Mark::Equal) {
        return Ok(None);
    }
    cursor.skip();
    Ok(Some(whole_expression(alloc, levels, cursor)?))
}

// The declaration of a local, without its end. The next token is `word`.
#[tactic(auto, unfolding(qml_grammar::specs::Statements::local))]
fn local_alone(
    alloc: Global,
    levels: usize,
    word: LocalWord,
    cursor: &mut Cursor<'_>,
) -> Result<Boxed<Stmt>, DocFault>
    ensures { IsReading (spec.local levels word (input_of cursor.old)) result (input_of cursor.new) }
{
    cursor.skip();
    let name = cursor.any_name(alloc)?;
    let value = initial(alloc, levels, cursor)?;
    Ok(Boxed::new(alloc, Stmt::Local(word, name, unboxed(value)))?)
}

/// The declaration of a local, whose next token is `word`.
#[tactic(auto, unfolding(qml_grammar::specs::Ends::ended, qml_expr::specs::Seen::input_of))]
pub(crate) fn local(
    alloc: Global,
    levels: usize,
    word: LocalWord,
    cursor: &mut Cursor<'_>,
) -> Result<Boxed<Stmt>, DocFault>
    ensures { IsReading (ended (spec.local levels word) (input_of cursor.old)) result (input_of cursor.new) }
{
    let before = cursor.rest;
    let stmt = local_alone(alloc, levels, word, cursor)?;
    end(before, cursor)?;
    Ok(stmt)
}

// Whether an expression begins behind a `return`, which is `last`.
fn gives_value(last: Option<&Token>, cursor: &Cursor<'_>) -> bool
    ensures { result ≡ spec.gives_value (seen (option_copied last.entry)) (inputs.ahead (input_of cursor.now)) }
{
    is_on_line_of(last, cursor) && !(cursor.sees(Mark::Semicolon) || cursor.sees(Mark::CloseBrace))
}

// What is behind a `return`, which is `last`.
#[tactic(auto, unfolding(qml_grammar::specs::Statements::returned))]
fn returned(
    alloc: Global,
    levels: usize,
    last: Option<&Token>,
    cursor: &mut Cursor<'_>,
) -> Result<Boxed<Stmt>, DocFault>
    ensures { IsReading (spec.returned levels (seen (option_copied last.entry)) (input_of cursor.old)) result (input_of cursor.new) }
{
    if !gives_value(last, cursor) {
        return Ok(Boxed::new(alloc, Stmt::Return(None))?);
    }
    let value = whole_expression(alloc, levels, cursor)?;
    Ok(Boxed::new(alloc, Stmt::Return(Some(value.into_inner())))?)
}

// `return`, and an expression where there is one, without its end.
#[tactic(auto, unfolding(qml_grammar::specs::Statements::leave, qml_expr::specs::Seen::input_of))]
fn leave_alone(
    alloc: Global,
    levels: usize,
    cursor: &mut Cursor<'_>,
) -> Result<Boxed<Stmt>, DocFault>
    ensures { IsReading (spec.leave levels (input_of cursor.old)) result (input_of cursor.new) }
{
    let word = cursor.rest.first();
    cursor.skip();
    returned(alloc, levels, word, cursor)
}

/// `return`, and an expression where there is one on its line.
#[tactic(auto, unfolding(qml_grammar::specs::Ends::ended, qml_expr::specs::Seen::input_of))]
pub(crate) fn leave(
    alloc: Global,
    levels: usize,
    cursor: &mut Cursor<'_>,
) -> Result<Boxed<Stmt>, DocFault>
    ensures { IsReading (ended (spec.leave levels) (input_of cursor.old)) result (input_of cursor.new) }
{
    let before = cursor.rest;
    let stmt = leave_alone(alloc, levels, cursor)?;
    end(before, cursor)?;
    Ok(stmt)
}

// What changes an expression that is a target, or the expression alone. `read` are its tokens.
#[tactic(auto, unfolding(qml_grammar::specs::Statements::acted))]
fn acted(
    alloc: Global,
    levels: usize,
    read: &[Token],
    expr: Boxed<Expr>,
    cursor: &mut Cursor<'_>,
) -> Result<Boxed<Stmt>, DocFault>
    ensures { IsReading (spec.acted levels (tokens_of read.now) (lexemes.last_of (tokens_of read.now)) expr (input_of cursor.old)) result (input_of cursor.new) }
{
    let last = last_of(read);
    if is_target(read) && changes_on(last, cursor) {
        return change(alloc, levels, expr, last, cursor);
    }
    Ok(Boxed::new(alloc, Stmt::Do(expr.into_inner()))?)
}

// An expression, or a change of it where it is a target, without its end.
#[tactic(auto, unfolding(qml_grammar::specs::Statements::act, qml_expr::specs::Seen::input_of))]
fn act_alone(alloc: Global, levels: usize, cursor: &mut Cursor<'_>) -> Result<Boxed<Stmt>, DocFault>
    ensures { IsReading (spec.act levels (input_of cursor.old)) result (input_of cursor.new) }
{
    let before = cursor.rest;
    let expr = whole_expression(alloc, levels, cursor)?;
    acted(alloc, levels, since(before, cursor.rest), expr, cursor)
}

/// An expression, or a change of it where it is a target.
#[tactic(auto, unfolding(qml_grammar::specs::Ends::ended, qml_expr::specs::Seen::input_of))]
pub(crate) fn act(
    alloc: Global,
    levels: usize,
    cursor: &mut Cursor<'_>,
) -> Result<Boxed<Stmt>, DocFault>
    ensures { IsReading (ended (spec.act levels) (input_of cursor.old)) result (input_of cursor.new) }
{
    let before = cursor.rest;
    let stmt = act_alone(alloc, levels, cursor)?;
    end(before, cursor)?;
    Ok(stmt)
}

// Parts of `for`

// `var`, a name, `=` and an expression.
#[tactic(auto, unfolding(qml_grammar::specs::Statements::simple_local))]
fn simple_local(
    alloc: Global,
    levels: usize,
    cursor: &mut Cursor<'_>,
) -> Result<Boxed<Stmt>, DocFault>
    ensures { IsReading (spec.simple_local levels (input_of cursor.old)) result (input_of cursor.new) }
{
    cursor.skip();
    let name = cursor.any_name(alloc)?;
    cursor.expect(Mark::Equal)?;
    let value = whole_expression(alloc, levels, cursor)?;
    let stmt = Stmt::Local(LocalWord::Var, name, Some(value.into_inner()));
    Ok(Boxed::new(alloc, stmt)?)
}

// A target and its change.
#[tactic(auto, unfolding(qml_grammar::specs::Statements::simple_change, qml_expr::specs::Seen::input_of))]
fn simple_change(
    alloc: Global,
    levels: usize,
    cursor: &mut Cursor<'_>,
) -> Result<Boxed<Stmt>, DocFault>
    ensures { IsReading (spec.simple_change levels (input_of cursor.old)) result (input_of cursor.new) }
{
    let before = cursor.rest;
    let target = target(alloc, cursor)?;
    let last = last_of(since(before, cursor.rest));
    change(alloc, levels, target, last, cursor)
}

// The first or the last part of a `for`.
#[tactic(auto, unfolding(qml_grammar::specs::Statements::simple))]
fn simple(alloc: Global, levels: usize, cursor: &mut Cursor<'_>) -> Result<Boxed<Stmt>, DocFault>
    ensures { IsReading (spec.simple levels (input_of cursor.old)) result (input_of cursor.new) }
{
    if cursor.sees_word(Word::Var) {
        return simple_local(alloc, levels, cursor);
    }
    simple_change(alloc, levels, cursor)
}

/// The first or the last part of a `for`, where there is one before `mark`.
#[tactic(auto, unfolding(qml_grammar::specs::Statements::simple_before))]
pub(crate) fn simple_before(
    alloc: Global,
    mark: Mark,
    levels: usize,
    cursor: &mut Cursor<'_>,
) -> Result<Option<Boxed<Stmt>>, DocFault>
    ensures { IsReading (spec.simple_before mark levels (input_of cursor.old)) result (input_of cursor.new) }
{
    if cursor.sees(mark) {
        return Ok(None);
    }
    Ok(Some(simple(alloc, levels, cursor)?))
}

/// The condition of a `for`, where there is one.
pub(crate) fn test(
    alloc: Global,
    levels: usize,
    cursor: &mut Cursor<'_>,
) -> Result<Option<Boxed<Expr>>, DocFault>
    ensures { IsReading (spec.test levels (input_of cursor.old)) result (input_of cursor.new) }
{
    if cursor.sees(Mark::Semicolon) {
        return Ok(None);
    }
    Ok(Some(whole_expression(alloc, levels, cursor)?))
}

/// An expression in parentheses, which are no level.
#[tactic(auto, unfolding(qml_grammar::specs::Statements::condition))]
pub(crate) fn condition(
    alloc: Global,
    levels: usize,
    cursor: &mut Cursor<'_>,
) -> Result<Boxed<Expr>, DocFault>
    ensures { IsReading (spec.condition levels (input_of cursor.old)) result (input_of cursor.new) }
{
    cursor.expect(Mark::OpenParen)?;
    let condition = whole_expression(alloc, levels, cursor)?;
    cursor.expect(Mark::CloseParen)?;
    Ok(condition)
}
