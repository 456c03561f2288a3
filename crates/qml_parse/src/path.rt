ghost use Rattle.std.specs.Prelude.{◌≡◌, codes, bytes_eq};
ghost use Rattle.qml_grammar.specs.Documents as spec;
ghost use Rattle.qml_expr.specs.Readings.{IsReading};
ghost use Rattle.qml_expr.specs.Seen.{input_of};

use crate::lookahead::sees_handler_name;
use qml_ast::{DocFault, Name, Path};
use qml_expr::Cursor;
use qml_grammar::Mark;
use std::alloc::Global;

/// A name, or two with a dot between them.
#[tactic(auto, unfolding(qml_grammar::specs::Documents::path))]
pub(crate) fn path(alloc: Global, cursor: &mut Cursor<'_>) -> Result<Path, DocFault>
    ensures { IsReading (spec.path (input_of cursor.old)) result (input_of cursor.new) }
{
    let first = cursor.any_name(alloc)?;
    path_behind(alloc, first, cursor)
}

// The path that begins with a name, behind it.
#[tactic(auto, unfolding(qml_grammar::specs::Documents::path_behind))]
fn path_behind(alloc: Global, first: Name, cursor: &mut Cursor<'_>) -> Result<Path, DocFault>
    ensures { IsReading (spec.path_behind first (input_of cursor.old)) result (input_of cursor.new) }
{
    if !cursor.sees(Mark::Dot) {
        return Ok(Path {
            first,
            second: None,
        });
    }
    cursor.skip();
    let second = second_name(alloc, &first, cursor)?;
    Ok(Path {
        first,
        second: Some(second),
    })
}

// Whether a name is `Component`, whose handlers have dots.
fn is_component(name: &Name) -> bool
    ensures { result ≡ bytes_eq name.now (codes "Component") }
{
    name.as_str() == "Component"
}

// The second name of a path: a handler's only behind `Component`.
#[tactic(auto, unfolding(qml_grammar::specs::Documents::second_name))]
fn second_name(alloc: Global, first: &Name, cursor: &mut Cursor<'_>) -> Result<Name, DocFault>
    ensures { IsReading (spec.second_name first.now (input_of cursor.old)) result (input_of cursor.new) }
{
    if sees_handler_name(cursor) && !is_component(first) {
        return Err(cursor.refusal());
    }
    cursor.any_name(alloc)
}

/// The name of an entry of a group, which is no handler's.
#[tactic(auto, unfolding(qml_grammar::specs::Documents::entry_name))]
pub(crate) fn entry_name(alloc: Global, cursor: &mut Cursor<'_>) -> Result<Name, DocFault>
    ensures { IsReading (spec.entry_name (input_of cursor.old)) result (input_of cursor.new) }
{
    if sees_handler_name(cursor) {
        return Err(cursor.refusal());
    }
    cursor.any_name(alloc)
}
