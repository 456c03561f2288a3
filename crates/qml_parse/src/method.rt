ghost use Rattle.std.specs.Prelude.{◌≡◌};
ghost use Rattle.qml_grammar.specs.Documents as spec;
ghost use Rattle.qml_grammar.specs.Inputs.{while_next};
ghost use Rattle.qml_grammar.specs.Lexemes.{is_mark};
ghost use Rattle.qml_grammar.specs.declared.mark.Mark.TheVariants.{Comma};
ghost use Rattle.qml_expr.specs.Readings.{IsReading};
ghost use Rattle.qml_expr.specs.Seen.{input_of};

use qml_ast::{DocFault, Member, MethodParam, Name, Span, Stmt};
use qml_expr::Cursor;
use qml_grammar::Mark;
use qml_stmt::block;
use shared_value::Shared;
use sqlite_items::{Boxed, Items};
use std::alloc::Global;

// A parameter: its name.
#[tactic(auto, unfolding(qml_grammar::specs::Documents::method_param))]
fn param(alloc: Global, cursor: &mut Cursor<'_>) -> Result<MethodParam, DocFault>
    ensures { IsReading (spec.method_param (input_of cursor.old)) result (input_of cursor.new) }
{
    let span = cursor.place();
    let name = cursor.any_name(alloc)?;
    Ok(MethodParam { name, span })
}

// One more parameter, behind a comma.
#[tactic(auto, unfolding(qml_grammar::specs::Documents::more_method_params))]
fn one_more(
    alloc: Global,
    before: Items<MethodParam>,
    cursor: &mut Cursor<'_>,
) -> Result<Items<MethodParam>, DocFault>
    ensures { IsReading (spec.more_method_params before (input_of cursor.old)) result (input_of cursor.new) }
{
    cursor.skip();
    let param = param(alloc, cursor)?;
    let mut params = before;
    params.push(param)?;
    Ok(params)
}

// Further parameters, each behind a comma.
fn further(
    alloc: Global,
    first: Items<MethodParam>,
    cursor: &mut Cursor<'_>,
) -> Result<Items<MethodParam>, DocFault>
    ensures { IsReading (while_next (is_mark Comma) spec.more_method_params first (input_of cursor.old)) result (input_of cursor.new) }
{
    let mut params = first;
    // Each turn takes a token.
    for _turn in 0..cursor.left() {
        if !cursor.sees(Mark::Comma) {
            return Ok(params);
        }
        params = one_more(alloc, params, cursor)?;
    }
    Ok(params)
}

// One parameter or more, and `)`.
#[tactic(auto, unfolding(qml_grammar::specs::Documents::some_method_params))]
fn some_params(alloc: Global, cursor: &mut Cursor<'_>) -> Result<Items<MethodParam>, DocFault>
    ensures { IsReading (spec.some_method_params (input_of cursor.old)) result (input_of cursor.new) }
{
    let first = param(alloc, cursor)?;
    let mut params = Items::new(alloc);
    params.push(first)?;
    let params = further(alloc, params, cursor)?;
    cursor.expect(Mark::CloseParen)?;
    Ok(params)
}

// Parameters in parentheses.
#[tactic(auto, unfolding(qml_grammar::specs::Documents::method_params))]
fn params(alloc: Global, cursor: &mut Cursor<'_>) -> Result<Items<MethodParam>, DocFault>
    ensures { IsReading (spec.method_params (input_of cursor.old)) result (input_of cursor.new) }
{
    cursor.expect(Mark::OpenParen)?;
    if cursor.sees(Mark::CloseParen) {
        cursor.skip();
        return Ok(Items::new(alloc));
    }
    some_params(alloc, cursor)
}

// The block of a method.
#[tactic(auto, unfolding(qml_grammar::specs::Documents::method_block))]
fn body(alloc: Global, levels: usize, cursor: &mut Cursor<'_>) -> Result<Items<Stmt>, DocFault>
    ensures { IsReading (spec.method_block levels (input_of cursor.old)) result (input_of cursor.new) }
{
    if !cursor.sees(Mark::OpenBrace) {
        return Err(cursor.refusal());
    }
    block(alloc, levels, cursor)
}

// A method behind its name.
#[tactic(auto, unfolding(qml_grammar::specs::Documents::method_behind))]
fn behind_name(
    alloc: Global,
    levels: usize,
    name: Name,
    span: Span,
    cursor: &mut Cursor<'_>,
) -> Result<Boxed<Member>, DocFault>
    ensures { IsReading (spec.method_behind levels name span (input_of cursor.old)) result (input_of cursor.new) }
{
    let params = params(alloc, cursor)?;
    let body = body(alloc, levels, cursor)?;
    let body = Shared::new(alloc, body)?;
    Ok(Boxed::new(
        alloc,
        Member::Method {
            name,
            params,
            body,
            span,
        },
    )?)
}

/// `function`, a name, parameters and a block.
#[tactic(auto, unfolding(qml_grammar::specs::Documents::method))]
pub(crate) fn method(
    alloc: Global,
    levels: usize,
    cursor: &mut Cursor<'_>,
) -> Result<Boxed<Member>, DocFault>
    ensures { IsReading (spec.method levels (input_of cursor.old)) result (input_of cursor.new) }
{
    cursor.skip();
    let span = cursor.place();
    let name = cursor.any_name(alloc)?;
    behind_name(alloc, levels, name, span, cursor)
}
