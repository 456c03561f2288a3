ghost use Rattle.std.specs.Prelude.{◌≡◌};
ghost use Rattle.qml_grammar.specs.Documents as spec;
ghost use Rattle.qml_grammar.specs.Inputs.{while_next};
ghost use Rattle.qml_grammar.specs.Lexemes.{is_mark};
ghost use Rattle.qml_grammar.specs.declared.mark.Mark.TheVariants.{Comma};
ghost use Rattle.qml_expr.specs.Readings.{IsReading};
ghost use Rattle.qml_expr.specs.Seen.{input_of};

use crate::lookahead::{is_dotted_kind, unsupported};
use qml_ast::{DocFault, Member, Name, SignalParam};
use qml_expr::Cursor;
use qml_grammar::Mark;
use sqlite_items::{Boxed, Items};
use std::alloc::Global;

/// The name of a kind.
#[tactic(auto, unfolding(qml_grammar::specs::Documents::kind))]
pub(crate) fn kind(alloc: Global, cursor: &mut Cursor<'_>) -> Result<Name, DocFault>
    ensures { IsReading (spec.kind (input_of cursor.old)) result (input_of cursor.new) }
{
    if is_dotted_kind(cursor) {
        return Err(unsupported(cursor));
    }
    cursor.any_name(alloc)
}

// A parameter: its kind and its name.
#[tactic(auto, unfolding(qml_grammar::specs::Documents::signal_param))]
fn param(alloc: Global, cursor: &mut Cursor<'_>) -> Result<SignalParam, DocFault>
    ensures { IsReading (spec.signal_param (input_of cursor.old)) result (input_of cursor.new) }
{
    let kind_span = cursor.place();
    let kind = kind(alloc, cursor)?;
    let name_span = cursor.place();
    let name = cursor.any_name(alloc)?;
    Ok(SignalParam {
        kind,
        name,
        kind_span,
        name_span,
    })
}

// One more parameter, behind a comma.
#[tactic(auto, unfolding(qml_grammar::specs::Documents::more_signal_params))]
fn one_more(
    alloc: Global,
    before: Items<SignalParam>,
    cursor: &mut Cursor<'_>,
) -> Result<Items<SignalParam>, DocFault>
    ensures { IsReading (spec.more_signal_params before (input_of cursor.old)) result (input_of cursor.new) }
{
    cursor.skip();
    let param = param(alloc, cursor)?;
    let mut params = before;
    params.push(param)?;
    Ok(params)
}

// Further parameters, each behind a comma.
fn further(
    alloc: Global,
    first: Items<SignalParam>,
    cursor: &mut Cursor<'_>,
) -> Result<Items<SignalParam>, DocFault>
    ensures { IsReading (while_next (is_mark Comma) spec.more_signal_params first (input_of cursor.old)) result (input_of cursor.new) }
{
    let mut params = first;
    // Each turn takes a token.
    for _turn in 0..cursor.left() {
        if !cursor.sees(Mark::Comma) {
            return Ok(params);
        }
        params = one_more(alloc, params, cursor)?;
    }
    Ok(params)
}

// One parameter or more, and `)`.
#[tactic(auto, unfolding(qml_grammar::specs::Documents::some_signal_params))]
fn some_params(alloc: Global, cursor: &mut Cursor<'_>) -> Result<Items<SignalParam>, DocFault>
    ensures { IsReading (spec.some_signal_params (input_of cursor.old)) result (input_of cursor.new) }
{
    let first = param(alloc, cursor)?;
    let mut params = Items::new(alloc);
    params.push(first)?;
    let params = further(alloc, params, cursor)?;
    cursor.expect(Mark::CloseParen)?;
    Ok(params)
}

// Parameters in parentheses, or nothing.
#[tactic(auto, unfolding(qml_grammar::specs::Documents::signal_params))]
fn params(alloc: Global, cursor: &mut Cursor<'_>) -> Result<Items<SignalParam>, DocFault>
    ensures { IsReading (spec.signal_params (input_of cursor.old)) result (input_of cursor.new) }
{
    if !cursor.sees(Mark::OpenParen) {
        return Ok(Items::new(alloc));
    }
    cursor.skip();
    if cursor.sees(Mark::CloseParen) {
        cursor.skip();
        return Ok(Items::new(alloc));
    }
    some_params(alloc, cursor)
}

/// `signal`, a name and parameters, without an end.
#[tactic(auto, unfolding(qml_grammar::specs::Documents::signal_member))]
pub(crate) fn signal(alloc: Global, cursor: &mut Cursor<'_>) -> Result<Boxed<Member>, DocFault>
    ensures { IsReading (spec.signal_member (input_of cursor.old)) result (input_of cursor.new) }
{
    cursor.skip();
    let span = cursor.place();
    let name = cursor.any_name(alloc)?;
    let params = params(alloc, cursor)?;
    Ok(Boxed::new(alloc, Member::Signal { name, params, span })?)
}
