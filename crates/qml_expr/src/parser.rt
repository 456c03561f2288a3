ghost use Rattle.std.specs.Prelude.{◌≡◌, IfOk};
ghost use Rattle.qml_grammar.specs.Expressions as spec;
ghost use Rattle.qml_grammar.specs.Expressions.{inner};
ghost use Rattle.qml_expr.specs.Lists.{listed};
ghost use Rattle.qml_expr.specs.Precedences.{made, operand_at, operands_at, operation_at};
ghost use Rattle.qml_expr.specs.Readings.{IsReading};
ghost use Rattle.qml_expr.specs.Seen.{input_of};

use crate::cursor::Cursor;
use crate::precedence::{Joint, Precedence};
use qml_ast::{DocFault, Expr, UnOp};
use qml_grammar::Mark;
use sqlite_items::{Boxed, Items};
use std::alloc::{AllocError, Global};

/// How many nodes an outermost expression may have.
pub const MAX_NODES: u32 = 200;

/// Reads the longest expression that the tokens begin with, of at most 200 nodes, and goes behind it.
/// `levels` more levels may be opened in it: by parentheses, the arguments of a call, an operator before
/// its operand, or the branches behind a `?`. How many nodes the cursor allows stays as it was.
///
/// The first fault has its place: `Syntax` at a token that cannot stand there, `Unsupported` where QML
/// has that token and the engine has not, `TooDeep` at a token that opens a level or is a node too many.
/// `NoMemory` comes where memory runs out. Nothing is told of the cursor after a fault.
///
/// The forms are those of ECMAScript 5.1, section 11, cut to the profile of this engine.
#[tactic(auto, unfolding(qml_grammar::specs::Expressions::whole, crate::specs::Seen::input_of))]
pub fn whole_expression(
    alloc: Global,
    levels: usize,
    cursor: &mut Cursor<'_>,
) -> Result<Boxed<Expr>, DocFault>
    ensures { IsReading (spec.whole levels (input_of cursor.old)) result (input_of cursor.new) }
{
    let nodes = cursor.nodes;
    cursor.nodes = MAX_NODES;
    let read = expression(alloc, levels, cursor)?;
    cursor.nodes = nodes;
    Ok(read)
}

/// Reads the longest expression that the tokens begin with, as a part of another one, and goes behind
/// it. `levels` more levels may be opened in it, and the cursor allows fewer nodes by those that it has.
/// Faults are as of `whole_expression`.
#[tactic(auto, unfolding(qml_grammar::specs::Expressions::expr, qml_grammar::specs::Expressions::expr_in, qml_grammar::specs::Expressions::conditional))]
#[cycle(expression)]
pub fn expression(
    alloc: Global,
    levels: usize,
    cursor: &mut Cursor<'_>,
) -> Result<Boxed<Expr>, DocFault>
    ensures { IsReading (spec.expr levels (input_of cursor.old)) result (input_of cursor.new) }
{
    let condition = operands(alloc, Precedence::Or, levels, cursor)?;
    if cursor.sees(Mark::Question) {
        return branches(alloc, levels, condition, cursor);
    }
    Ok(condition)
}

// Refuses where no level may be opened.
fn enter(levels: usize, cursor: &Cursor<'_>) -> Result<(), DocFault>
    ensures { IsReading ((inner levels).enter (input_of cursor.now)) result (input_of cursor.now) }
{
    if levels == 0 {
        return Err(cursor.too_deep());
    }
    Ok(())
}

// An expression one level further in.
#[cycle(expression)]
fn inner_expression(
    alloc: Global,
    levels: usize,
    cursor: &mut Cursor<'_>,
) -> Result<Boxed<Expr>, DocFault>
    ensures { IsReading ((inner levels).expr (input_of cursor.old)) result (input_of cursor.new) }
{
    if levels == 0 {
        return Err(cursor.too_deep());
    }
    expression(alloc, levels - 1, cursor)
}

// The operand of an operator before it, one level further in.
#[cycle(expression)]
fn inner_unary(
    alloc: Global,
    levels: usize,
    cursor: &mut Cursor<'_>,
) -> Result<Boxed<Expr>, DocFault>
    ensures { IsReading ((inner levels).unary (input_of cursor.old)) result (input_of cursor.new) }
{
    if levels == 0 {
        return Err(cursor.too_deep());
    }
    unary(alloc, levels - 1, cursor)
}

// `?`, an expression, `:` and another one, behind the condition.
#[tactic(auto, unfolding(qml_grammar::specs::Expressions::branches))]
#[cycle(expression)]
fn branches(
    alloc: Global,
    levels: usize,
    condition: Boxed<Expr>,
    cursor: &mut Cursor<'_>,
) -> Result<Boxed<Expr>, DocFault>
    ensures { IsReading (spec.branches (inner levels) condition (input_of cursor.old)) result (input_of cursor.new) }
{
    enter(levels, cursor)?;
    cursor.take_node()?;
    let then = inner_expression(alloc, levels, cursor)?;
    cursor.expect(Mark::Colon)?;
    let otherwise = inner_expression(alloc, levels, cursor)?;
    Ok(Boxed::new(alloc, Expr::Cond(condition, then, otherwise))?)
}

// Operands with the level's operators between them, from the left.
#[cycle(expression)]
fn operands(
    alloc: Global,
    precedence: Precedence,
    levels: usize,
    cursor: &mut Cursor<'_>,
) -> Result<Boxed<Expr>, DocFault>
    ensures { IsReading (operands_at precedence (inner levels) (input_of cursor.old)) result (input_of cursor.new) }
{
    let mut read = operand(alloc, precedence, levels, cursor)?;
    // Each turn takes a token.
    for _turn in 0..cursor.left() {
        if !cursor.begins(precedence) {
            return Ok(read);
        }
        read = operation(alloc, precedence, levels, read, cursor)?;
    }
    Ok(read)
}

// An operand of the level's operators.
#[inline(always)]
#[cycle(expression)]
fn operand(
    alloc: Global,
    precedence: Precedence,
    levels: usize,
    cursor: &mut Cursor<'_>,
) -> Result<Boxed<Expr>, DocFault>
    ensures { IsReading (operand_at precedence (inner levels) (input_of cursor.old)) result (input_of cursor.new) }
{
    match precedence {
        Precedence::Product => unary(alloc, levels, cursor),
        Precedence::Sum => operands(alloc, Precedence::Product, levels, cursor),
        Precedence::Order => operands(alloc, Precedence::Sum, levels, cursor),
        Precedence::Equality => operands(alloc, Precedence::Order, levels, cursor),
        Precedence::And => operands(alloc, Precedence::Equality, levels, cursor),
        Precedence::Or => operands(alloc, Precedence::And, levels, cursor),
    }
}

// An operator of the level and its right operand, behind the left one.
#[tactic(auto, unfolding(qml_grammar::specs::Expressions::operator))]
#[cycle(expression)]
fn operation(
    alloc: Global,
    precedence: Precedence,
    levels: usize,
    left: Boxed<Expr>,
    cursor: &mut Cursor<'_>,
) -> Result<Boxed<Expr>, DocFault>
    ensures { IsReading (operation_at precedence (inner levels) left (input_of cursor.old)) result (input_of cursor.new) }
{
    match precedence {
        Precedence::And => joined(alloc, precedence, Joint::Both, levels, left, cursor),
        Precedence::Or => joined(alloc, precedence, Joint::Either, levels, left, cursor),
        _ => match cursor.operator(precedence) {
            Some(operator) => {
                let joint = Joint::Operator(operator);
                joined(alloc, precedence, joint, levels, left, cursor)
            }
            None => Err(cursor.refusal()),
        },
    }
}

// The token between two operands and the right one, behind the left one.
#[tactic(auto, unfolding(qml_grammar::specs::Expressions::joined))]
#[cycle(expression)]
fn joined(
    alloc: Global,
    precedence: Precedence,
    joint: Joint,
    levels: usize,
    left: Boxed<Expr>,
    cursor: &mut Cursor<'_>,
) -> Result<Boxed<Expr>, DocFault>
    ensures { IsReading (spec.joined (made joint) (operand_at precedence (inner levels)) left (input_of cursor.old)) result (input_of cursor.new) }
{
    cursor.take_node()?;
    let right = operand(alloc, precedence, levels, cursor)?;
    Ok(join(alloc, joint, left, right)?)
}

// The expression that a joint makes of its operands.
fn join(
    alloc: Global,
    joint: Joint,
    left: Boxed<Expr>,
    right: Boxed<Expr>,
) -> Result<Boxed<Expr>, AllocError>
    ensures { IfOk result (λ joined. joined ≡ made joint left right) }
{
    match joint {
        Joint::Operator(operator) => Boxed::new(alloc, Expr::Binary(operator, left, right)),
        Joint::Both => Boxed::new(alloc, Expr::And(left, right)),
        Joint::Either => Boxed::new(alloc, Expr::Or(left, right)),
    }
}

// An operator before its operand, or an operand with what follows it.
#[tactic(auto, unfolding(qml_grammar::specs::Expressions::unary_in))]
#[cycle(expression)]
fn unary(alloc: Global, levels: usize, cursor: &mut Cursor<'_>) -> Result<Boxed<Expr>, DocFault>
    ensures { IsReading (spec.unary_in (inner levels) (input_of cursor.old)) result (input_of cursor.new) }
{
    match cursor.unary_operator() {
        Some(operator) => operated(alloc, levels, operator, cursor),
        None => postfixes(alloc, levels, cursor),
    }
}

// An operator and its operand.
#[tactic(auto, unfolding(qml_grammar::specs::Expressions::operated))]
#[cycle(expression)]
fn operated(
    alloc: Global,
    levels: usize,
    operator: UnOp,
    cursor: &mut Cursor<'_>,
) -> Result<Boxed<Expr>, DocFault>
    ensures { IsReading (spec.operated (inner levels) operator (input_of cursor.old)) result (input_of cursor.new) }
{
    enter(levels, cursor)?;
    cursor.take_node()?;
    let operand = inner_unary(alloc, levels, cursor)?;
    Ok(Boxed::new(alloc, Expr::Unary(operator, operand))?)
}

// A primary expression with members and calls behind it.
#[cycle(expression)]
fn postfixes(alloc: Global, levels: usize, cursor: &mut Cursor<'_>) -> Result<Boxed<Expr>, DocFault>
    ensures { IsReading (spec.postfixes (inner levels) (input_of cursor.old)) result (input_of cursor.new) }
{
    let mut read = primary(alloc, levels, cursor)?;
    // Each turn takes a token.
    for _turn in 0..cursor.left() {
        if !cursor.begins_postfix() {
            return Ok(read);
        }
        read = postfix(alloc, levels, read, cursor)?;
    }
    Ok(read)
}

// A member or a call, behind what has it.
#[tactic(auto, unfolding(qml_grammar::specs::Expressions::postfix))]
#[cycle(expression)]
fn postfix(
    alloc: Global,
    levels: usize,
    object: Boxed<Expr>,
    cursor: &mut Cursor<'_>,
) -> Result<Boxed<Expr>, DocFault>
    ensures { IsReading (spec.postfix (inner levels) object (input_of cursor.old)) result (input_of cursor.new) }
{
    if cursor.sees(Mark::Dot) {
        return member(alloc, object, cursor);
    }
    call(alloc, levels, object, cursor)
}

/// Reads `.` and a name behind what has the member, and goes behind them. The fault is `TooDeep` at the
/// first token where the cursor allows no node, the refusal of a second one that is no name, or
/// `NoMemory`.
#[tactic(auto, unfolding(qml_grammar::specs::Expressions::member))]
pub fn member(
    alloc: Global,
    object: Boxed<Expr>,
    cursor: &mut Cursor<'_>,
) -> Result<Boxed<Expr>, DocFault>
    ensures { IsReading (spec.member object (input_of cursor.old)) result (input_of cursor.new) }
{
    cursor.take_node()?;
    let name = cursor.any_name(alloc)?;
    Ok(Boxed::new(alloc, Expr::Member(object, name))?)
}

// `(`, arguments and `)`, behind what is called.
#[tactic(auto, unfolding(qml_grammar::specs::Expressions::call))]
#[cycle(expression)]
fn call(
    alloc: Global,
    levels: usize,
    callee: Boxed<Expr>,
    cursor: &mut Cursor<'_>,
) -> Result<Boxed<Expr>, DocFault>
    ensures { IsReading (spec.call (inner levels) callee (input_of cursor.old)) result (input_of cursor.new) }
{
    enter(levels, cursor)?;
    cursor.take_node()?;
    let arguments = arguments(alloc, levels, cursor)?;
    Ok(Boxed::new(alloc, Expr::Call(callee, arguments))?)
}

// Arguments, if there are any, and `)`.
#[tactic(auto, unfolding(qml_grammar::specs::Expressions::arguments, qml_grammar::specs::Expressions::some_arguments, crate::specs::Lists::listed))]
#[cycle(expression)]
fn arguments(alloc: Global, levels: usize, cursor: &mut Cursor<'_>) -> Result<Items<Expr>, DocFault>
    ensures { IsReading (spec.arguments (inner levels) (input_of cursor.old)) result (input_of cursor.new) }
{
    if cursor.sees(Mark::CloseParen) {
        cursor.skip();
        return Ok(Items::new(alloc));
    }
    let arguments = listed(alloc, levels, cursor)?;
    cursor.expect(Mark::CloseParen)?;
    Ok(arguments)
}

// Arguments with commas between them.
#[cycle(expression)]
fn listed(alloc: Global, levels: usize, cursor: &mut Cursor<'_>) -> Result<Items<Expr>, DocFault>
    ensures { IsReading (listed (inner levels) (input_of cursor.old)) result (input_of cursor.new) }
{
    let first = inner_expression(alloc, levels, cursor)?;
    let mut arguments = Items::new(alloc);
    arguments.push(first.into_inner())?;
    // Each turn takes a token.
    for _turn in 0..cursor.left() {
        if !cursor.sees(Mark::Comma) {
            return Ok(arguments);
        }
        arguments = argument(alloc, levels, arguments, cursor)?;
    }
    Ok(arguments)
}

// One more argument, behind a comma.
#[tactic(auto, unfolding(qml_grammar::specs::Expressions::argument))]
#[cycle(expression)]
fn argument(
    alloc: Global,
    levels: usize,
    before: Items<Expr>,
    cursor: &mut Cursor<'_>,
) -> Result<Items<Expr>, DocFault>
    ensures { IsReading (spec.argument (inner levels) before (input_of cursor.old)) result (input_of cursor.new) }
{
    cursor.skip();
    let argument = inner_expression(alloc, levels, cursor)?;
    let mut arguments = before;
    arguments.push(argument.into_inner())?;
    Ok(arguments)
}

// An expression in parentheses, a literal or a name.
#[tactic(auto, unfolding(qml_grammar::specs::Expressions::primary))]
#[cycle(expression)]
fn primary(alloc: Global, levels: usize, cursor: &mut Cursor<'_>) -> Result<Boxed<Expr>, DocFault>
    ensures { IsReading (spec.primary (inner levels) (input_of cursor.old)) result (input_of cursor.new) }
{
    if cursor.sees(Mark::OpenParen) {
        return parens(alloc, levels, cursor);
    }
    atom(alloc, cursor)
}

// An expression in parentheses.
#[tactic(auto, unfolding(qml_grammar::specs::Expressions::parens))]
#[cycle(expression)]
fn parens(alloc: Global, levels: usize, cursor: &mut Cursor<'_>) -> Result<Boxed<Expr>, DocFault>
    ensures { IsReading (spec.parens (inner levels) (input_of cursor.old)) result (input_of cursor.new) }
{
    enter(levels, cursor)?;
    cursor.skip();
    let inside = inner_expression(alloc, levels, cursor)?;
    cursor.expect(Mark::CloseParen)?;
    Ok(inside)
}

// A literal or a name.
#[tactic(auto, unfolding(qml_grammar::specs::Expressions::atom))]
fn atom(alloc: Global, cursor: &mut Cursor<'_>) -> Result<Boxed<Expr>, DocFault>
    ensures { IsReading (spec.atom (input_of cursor.old)) result (input_of cursor.new) }
{
    match cursor.atom(alloc)? {
        Some(atom) => {
            cursor.take_node()?;
            Ok(atom)
        }
        None => Err(cursor.operand_refusal()),
    }
}
