ghost use Rattle.qml_grammar.specs.Statements as spec;
ghost use Rattle.qml_grammar.specs.Statements.{bodies};
ghost use Rattle.qml_expr.specs.Readings.{IsReading};
ghost use Rattle.qml_expr.specs.Seen.{input_of};
ghost use Rattle.qml_stmt.specs.Runs.{run};

use crate::lookahead::{begins_statement, goes_on_inside, local_word};
use crate::short::{act, condition, leave, local, simple_before, test, unboxed};
use qml_ast::{DocFault, Expr, Stmt};
use qml_expr::Cursor;
use qml_grammar::{Mark, Word};
use sqlite_items::{Boxed, Items};
use std::alloc::Global;

/// Reads the statement that the tokens begin with, with its end, and goes behind it. `levels` more levels
/// may be opened in it: by a block, by the statement inside `if`, `else`, `while` or `for`, and by what is
/// a level of its expressions. A statement is no level by itself. How many nodes the cursor allows stays
/// as it was.
///
/// The first fault has its place: `Syntax` at a token that cannot stand there, `Unsupported` where QML
/// has that token and the engine has not, `TooDeep` at a token that opens a level or is a node too many.
/// `NoMemory` comes where memory runs out. Nothing is told of the cursor after a fault.
///
/// The forms are those of ECMAScript 5.1, section 12, with the ends of section 7.9, cut to the profile of
/// this engine.
#[tactic(auto, unfolding(qml_grammar::specs::Statements::statement, qml_grammar::specs::Statements::statement_in, qml_grammar::specs::Statements::empty_statement))]
#[cycle(statement)]
pub fn statement(
    alloc: Global,
    levels: usize,
    cursor: &mut Cursor<'_>,
) -> Result<Boxed<Stmt>, DocFault>
    ensures { IsReading (spec.statement levels (input_of cursor.old)) result (input_of cursor.new) }
{
    if cursor.sees(Mark::OpenBrace) {
        return block_statement(alloc, levels, cursor);
    }
    if cursor.sees(Mark::Semicolon) {
        cursor.skip();
        return Ok(Boxed::new(alloc, Stmt::Empty)?);
    }
    match local_word(cursor) {
        Some(word) => local(alloc, levels, word, cursor),
        None => by_word(alloc, levels, cursor),
    }
}

// A statement other than a block, an empty one and the declaration of a local.
#[tactic(auto, unfolding(qml_grammar::specs::Statements::by_word))]
#[cycle(statement)]
fn by_word(alloc: Global, levels: usize, cursor: &mut Cursor<'_>) -> Result<Boxed<Stmt>, DocFault>
    ensures { IsReading (spec.by_word levels (bodies levels) (input_of cursor.old)) result (input_of cursor.new) }
{
    if cursor.sees_word(Word::If) {
        return choice(alloc, levels, cursor);
    }
    if cursor.sees_word(Word::While) {
        return while_statement(alloc, levels, cursor);
    }
    if cursor.sees_word(Word::For) {
        return for_statement(alloc, levels, cursor);
    }
    if cursor.sees_word(Word::Return) {
        return leave(alloc, levels, cursor);
    }
    act(alloc, levels, cursor)
}

// A statement inside another one, one level further in.
#[cycle(statement)]
fn nested(alloc: Global, levels: usize, cursor: &mut Cursor<'_>) -> Result<Boxed<Stmt>, DocFault>
    ensures { IsReading ((bodies levels).nested (input_of cursor.old)) result (input_of cursor.new) }
{
    if !begins_statement(cursor) {
        return Err(cursor.operand_refusal());
    }
    if levels == 0 {
        return Err(cursor.too_deep());
    }
    statement(alloc, levels - 1, cursor)
}

/// Reads `{`, which opens a level, statements and `}`, and goes behind them. The next token has to be
/// `{`, which is not tested. `levels` more levels may be opened, the block's own among them: the fault is
/// `TooDeep` at the `{` where `levels` is 0. Other faults are as of `statement`.
#[cycle(statement)]
pub fn block(alloc: Global, levels: usize, cursor: &mut Cursor<'_>) -> Result<Items<Stmt>, DocFault>
    ensures { IsReading ((bodies levels).block (input_of cursor.old)) result (input_of cursor.new) }
{
    if levels == 0 {
        return Err(cursor.too_deep());
    }
    cursor.skip();
    statements(alloc, levels - 1, cursor)
}

// Statements and `}`, behind `{`.
#[tactic(auto, unfolding(qml_grammar::specs::Statements::statements, crate::specs::Runs::run))]
#[cycle(statement)]
fn statements(
    alloc: Global,
    levels: usize,
    cursor: &mut Cursor<'_>,
) -> Result<Items<Stmt>, DocFault>
    ensures { IsReading (spec.statements levels (bodies levels) (input_of cursor.old)) result (input_of cursor.new) }
{
    let stmts = run(alloc, levels, cursor)?;
    cursor.expect(Mark::CloseBrace)?;
    Ok(stmts)
}

// Statements up to `}` or to the end.
#[cycle(statement)]
fn run(alloc: Global, levels: usize, cursor: &mut Cursor<'_>) -> Result<Items<Stmt>, DocFault>
    ensures { IsReading (run levels (bodies levels) (input_of cursor.old)) result (input_of cursor.new) }
{
    let mut stmts = Items::new(alloc);
    // Each turn takes a token.
    for _turn in 0..cursor.left() {
        if !goes_on_inside(cursor) {
            return Ok(stmts);
        }
        stmts = one_more(alloc, levels, stmts, cursor)?;
    }
    Ok(stmts)
}

// One more statement, behind others.
#[tactic(auto, unfolding(qml_grammar::specs::Statements::one_more, qml_grammar::specs::Statements::statement))]
#[cycle(statement)]
fn one_more(
    alloc: Global,
    levels: usize,
    before: Items<Stmt>,
    cursor: &mut Cursor<'_>,
) -> Result<Items<Stmt>, DocFault>
    ensures { IsReading (spec.one_more levels (bodies levels) before (input_of cursor.old)) result (input_of cursor.new) }
{
    let stmt = statement(alloc, levels, cursor)?;
    let mut stmts = before;
    stmts.push(stmt.into_inner())?;
    Ok(stmts)
}

// A block as a statement.
#[tactic(auto, unfolding(qml_grammar::specs::Statements::block_statement))]
#[cycle(statement)]
fn block_statement(
    alloc: Global,
    levels: usize,
    cursor: &mut Cursor<'_>,
) -> Result<Boxed<Stmt>, DocFault>
    ensures { IsReading (spec.block_statement (bodies levels) (input_of cursor.old)) result (input_of cursor.new) }
{
    let stmts = block(alloc, levels, cursor)?;
    Ok(Boxed::new(alloc, Stmt::Block(stmts))?)
}

// `if`, a condition, a statement, and `else` and another one where there is one.
#[tactic(auto, unfolding(qml_grammar::specs::Statements::choice))]
#[cycle(statement)]
fn choice(alloc: Global, levels: usize, cursor: &mut Cursor<'_>) -> Result<Boxed<Stmt>, DocFault>
    ensures { IsReading (spec.choice levels (bodies levels) (input_of cursor.old)) result (input_of cursor.new) }
{
    cursor.skip();
    let condition = condition(alloc, levels, cursor)?;
    let then = nested(alloc, levels, cursor)?;
    otherwise(alloc, levels, condition, then, cursor)
}

// `else` and a statement, or nothing, behind the rest of an `if`.
#[tactic(auto, unfolding(qml_grammar::specs::Statements::otherwise))]
#[cycle(statement)]
fn otherwise(
    alloc: Global,
    levels: usize,
    condition: Boxed<Expr>,
    then: Boxed<Stmt>,
    cursor: &mut Cursor<'_>,
) -> Result<Boxed<Stmt>, DocFault>
    ensures { IsReading (spec.otherwise (bodies levels) condition then (input_of cursor.old)) result (input_of cursor.new) }
{
    if !cursor.sees_word(Word::Else) {
        return Ok(Boxed::new(alloc, Stmt::If(condition.into_inner(), then, None))?);
    }
    cursor.skip();
    let other = nested(alloc, levels, cursor)?;
    Ok(Boxed::new(alloc, Stmt::If(condition.into_inner(), then, Some(other)))?)
}

// `while`, a condition and a statement.
#[tactic(auto, unfolding(qml_grammar::specs::Statements::while_statement))]
#[cycle(statement)]
fn while_statement(
    alloc: Global,
    levels: usize,
    cursor: &mut Cursor<'_>,
) -> Result<Boxed<Stmt>, DocFault>
    ensures { IsReading (spec.while_statement levels (bodies levels) (input_of cursor.old)) result (input_of cursor.new) }
{
    cursor.skip();
    let condition = condition(alloc, levels, cursor)?;
    let body = nested(alloc, levels, cursor)?;
    Ok(Boxed::new(alloc, Stmt::While(condition.into_inner(), body))?)
}

// `for` with its parts in parentheses, and a statement.
#[tactic(auto, unfolding(qml_grammar::specs::Statements::for_statement))]
#[cycle(statement)]
fn for_statement(
    alloc: Global,
    levels: usize,
    cursor: &mut Cursor<'_>,
) -> Result<Boxed<Stmt>, DocFault>
    ensures { IsReading (spec.for_statement levels (bodies levels) (input_of cursor.old)) result (input_of cursor.new) }
{
    cursor.skip();
    cursor.expect(Mark::OpenParen)?;
    let first = simple_before(alloc, Mark::Semicolon, levels, cursor)?;
    for_test(alloc, levels, first, cursor)
}

// A `for` from its first `;` on.
#[tactic(auto, unfolding(qml_grammar::specs::Statements::for_test))]
#[cycle(statement)]
fn for_test(
    alloc: Global,
    levels: usize,
    first: Option<Boxed<Stmt>>,
    cursor: &mut Cursor<'_>,
) -> Result<Boxed<Stmt>, DocFault>
    ensures { IsReading (spec.for_test levels (bodies levels) first (input_of cursor.old)) result (input_of cursor.new) }
{
    cursor.expect(Mark::Semicolon)?;
    let condition = test(alloc, levels, cursor)?;
    for_step(alloc, levels, first, condition, cursor)
}

// A `for` from its second `;` on.
#[tactic(auto, unfolding(qml_grammar::specs::Statements::for_step))]
#[cycle(statement)]
fn for_step(
    alloc: Global,
    levels: usize,
    first: Option<Boxed<Stmt>>,
    condition: Option<Boxed<Expr>>,
    cursor: &mut Cursor<'_>,
) -> Result<Boxed<Stmt>, DocFault>
    ensures { IsReading (spec.for_step levels (bodies levels) first condition (input_of cursor.old)) result (input_of cursor.new) }
{
    cursor.expect(Mark::Semicolon)?;
    let step = simple_before(alloc, Mark::CloseParen, levels, cursor)?;
    for_body(alloc, levels, first, condition, step, cursor)
}

// A `for` from its `)` on.
#[tactic(auto, unfolding(qml_grammar::specs::Statements::for_body))]
#[cycle(statement)]
fn for_body(
    alloc: Global,
    levels: usize,
    first: Option<Boxed<Stmt>>,
    condition: Option<Boxed<Expr>>,
    step: Option<Boxed<Stmt>>,
    cursor: &mut Cursor<'_>,
) -> Result<Boxed<Stmt>, DocFault>
    ensures { IsReading (spec.for_body (bodies levels) first condition step (input_of cursor.old)) result (input_of cursor.new) }
{
    cursor.expect(Mark::CloseParen)?;
    let body = nested(alloc, levels, cursor)?;
    Ok(Boxed::new(alloc, Stmt::For(first, unboxed(condition), step, body))?)
}
