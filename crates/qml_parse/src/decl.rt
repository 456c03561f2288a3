ghost use Rattle.std.specs.Prelude.{[], false};
ghost use Rattle.qml_grammar.specs.Documents as spec;
ghost use Rattle.qml_grammar.specs.Documents.{under};
ghost use Rattle.qml_grammar.specs.Ends.{ended};
ghost use Rattle.qml_grammar.specs.Inputs.{while_next};
ghost use Rattle.qml_grammar.specs.Statements as statements;
ghost use Rattle.qml_expr.specs.Readings.{IsReading};
ghost use Rattle.qml_expr.specs.Seen.{input_of};
ghost use Rattle.qml_parse.specs.Values.{IsReadingValue};

use crate::lookahead::{
    Follower, begins_group, begins_object, begins_on, goes_on_inside, is_dotted_type,
    is_handler_path, is_upper_first, sees_unsupported_member, unsupported,
};
use crate::member::{
    Declared, alone, handled, id_member, initialiser, method_member, property_kind, property_of,
    signal_member,
};
use crate::path::{entry_name, path};
use crate::value::{Valued, expr_value};
use qml_ast::{Decl, DocFault, Init, Member, Name, Path, Span};
use qml_expr::Cursor;
use qml_grammar::{Mark, Word};
use qml_stmt::end;
use sqlite_items::{Boxed, Items};
use std::alloc::Global;

// Objects and values

/// Reads an object, whose type's name begins with an upper-case letter, and goes behind it. `levels` more
/// levels may be opened in it, the one of its own `{` among them.
///
/// The first fault has its place: `Syntax` at a token that cannot stand there, `Unsupported` where QML
/// has what begins there and the engine has not, `TooDeep` at a token that opens a level or is a node too
/// many. `NoMemory` comes where memory runs out. Nothing is told of the cursor after a fault.
#[tactic(auto, unfolding(qml_grammar::specs::Documents::object_in))]
#[cycle(decl)]
pub(crate) fn object(
    alloc: Global,
    levels: usize,
    cursor: &mut Cursor<'_>,
) -> Result<Boxed<Decl>, DocFault>
    ensures { IsReading (spec.object_in (under levels) (input_of cursor.old)) result (input_of cursor.new) }
{
    let span = cursor.place();
    let Some(name) = cursor.name(alloc)? else {
        return Err(cursor.refusal());
    };
    if !is_upper_first(name.as_bytes()) {
        return Err(cursor.refusal());
    }
    cursor.skip();
    let members = body(alloc, levels, cursor)?;
    Ok(Boxed::new(
        alloc,
        Decl {
            name,
            members,
            span,
        },
    )?)
}

// `{`, members and `}`.
#[tactic(auto, unfolding(qml_grammar::specs::Documents::body))]
#[cycle(decl)]
fn body(alloc: Global, levels: usize, cursor: &mut Cursor<'_>) -> Result<Items<Member>, DocFault>
    ensures { IsReading (spec.body (under levels) (input_of cursor.old)) result (input_of cursor.new) }
{
    if !cursor.sees(Mark::OpenBrace) {
        return Err(cursor.refusal());
    }
    inner_members(alloc, levels, cursor)
}

// An object or an expression, as an initialiser's value.
#[tactic(auto, unfolding(qml_grammar::specs::Documents::value_in))]
#[cycle(decl)]
fn value(alloc: Global, levels: usize, cursor: &mut Cursor<'_>) -> Result<Valued, DocFault>
    ensures { IsReadingValue (spec.value_in levels (under levels) (input_of cursor.old)) result (input_of cursor.new) }
{
    if begins_object(cursor) {
        return object_value(alloc, levels, cursor);
    }
    if is_dotted_type(cursor, Follower::Brace) {
        return Err(unsupported(cursor));
    }
    expr_value(alloc, levels, cursor)
}

// An object as an initialiser's value.
#[tactic(auto, unfolding(qml_grammar::specs::Documents::object_value))]
#[cycle(decl)]
fn object_value(alloc: Global, levels: usize, cursor: &mut Cursor<'_>) -> Result<Valued, DocFault>
    ensures { IsReadingValue (spec.object_value (under levels) (input_of cursor.old)) result (input_of cursor.new) }
{
    let span = cursor.place();
    let object = object(alloc, levels, cursor)?;
    let init = Boxed::new(alloc, Init::Object(object))?;
    Ok(Valued { init, span })
}

// Properties

// A property that is not `readonly`.
#[tactic(auto, unfolding(qml_grammar::specs::Documents::alone, qml_grammar::specs::Ends::ended, qml_expr::specs::Seen::input_of))]
#[cycle(decl)]
fn property_member(
    alloc: Global,
    levels: usize,
    cursor: &mut Cursor<'_>,
) -> Result<Items<Member>, DocFault>
    ensures { IsReading (spec.alone (ended (spec.property levels (under levels) false)) (input_of cursor.old)) result (input_of cursor.new) }
{
    let before = cursor.rest;
    let member = property(alloc, levels, false, cursor)?;
    end(before, cursor)?;
    Ok(alone(alloc, member)?)
}

// A `readonly` property.
#[tactic(auto, unfolding(qml_grammar::specs::Documents::alone, qml_grammar::specs::Ends::ended, qml_expr::specs::Seen::input_of))]
#[cycle(decl)]
fn fixed_property_member(
    alloc: Global,
    levels: usize,
    cursor: &mut Cursor<'_>,
) -> Result<Items<Member>, DocFault>
    ensures { IsReading (spec.alone (ended (spec.fixed_property levels (under levels))) (input_of cursor.old)) result (input_of cursor.new) }
{
    let before = cursor.rest;
    let member = fixed_property(alloc, levels, cursor)?;
    end(before, cursor)?;
    Ok(alone(alloc, member)?)
}

// `readonly` and a property, without an end.
#[tactic(auto, unfolding(qml_grammar::specs::Documents::fixed_property))]
#[cycle(decl)]
fn fixed_property(
    alloc: Global,
    levels: usize,
    cursor: &mut Cursor<'_>,
) -> Result<Boxed<Member>, DocFault>
    ensures { IsReading (spec.fixed_property levels (under levels) (input_of cursor.old)) result (input_of cursor.new) }
{
    cursor.skip();
    if !cursor.sees_word(Word::Property) {
        return Err(cursor.refusal());
    }
    property(alloc, levels, true, cursor)
}

// `property`, a kind, a name and a value where there is one, without an end.
#[tactic(auto, unfolding(qml_grammar::specs::Documents::property, qml_grammar::specs::Documents::kind_and_name))]
#[cycle(decl)]
fn property(
    alloc: Global,
    levels: usize,
    fixed: bool,
    cursor: &mut Cursor<'_>,
) -> Result<Boxed<Member>, DocFault>
    ensures { IsReading (spec.property levels (under levels) fixed (input_of cursor.old)) result (input_of cursor.new) }
{
    cursor.skip();
    let kind_span = cursor.place();
    let kind = property_kind(alloc, cursor)?;
    let span = cursor.place();
    let name = cursor.any_name(alloc)?;
    let declared = Declared {
        fixed,
        kind,
        kind_span,
        name,
        span,
    };
    property_value(alloc, levels, declared, cursor)
}

// `:` and a value, or nothing, behind a property's name.
#[tactic(auto, unfolding(qml_grammar::specs::Documents::property_value))]
#[cycle(decl)]
fn property_value(
    alloc: Global,
    levels: usize,
    declared: Declared,
    cursor: &mut Cursor<'_>,
) -> Result<Boxed<Member>, DocFault>
    ensures { IsReading (spec.property_value levels (under levels) declared.fixed declared.kind declared.kind_span declared.name declared.span (input_of cursor.old)) result (input_of cursor.new) }
{
    if !cursor.sees(Mark::Colon) {
        let place = declared.span;
        return Ok(property_of(alloc, declared, None, place)?);
    }
    cursor.skip();
    let value = value(alloc, levels, cursor)?;
    Ok(property_of(alloc, declared, Some(value.init), value.span)?)
}

// Members of paths

// A handler or an initialiser.
#[tactic(auto, unfolding(qml_grammar::specs::Documents::alone, qml_grammar::specs::Ends::ended, qml_expr::specs::Seen::input_of))]
#[cycle(decl)]
fn path_member(
    alloc: Global,
    levels: usize,
    cursor: &mut Cursor<'_>,
) -> Result<Items<Member>, DocFault>
    ensures { IsReading (spec.alone (ended (spec.path_member levels (under levels))) (input_of cursor.old)) result (input_of cursor.new) }
{
    let before = cursor.rest;
    let member = path_alone(alloc, levels, cursor)?;
    end(before, cursor)?;
    Ok(alone(alloc, member)?)
}

// A handler or an initialiser, without an end.
#[tactic(auto, unfolding(qml_grammar::specs::Documents::path_member, qml_grammar::specs::Documents::behind_path))]
#[cycle(decl)]
fn path_alone(
    alloc: Global,
    levels: usize,
    cursor: &mut Cursor<'_>,
) -> Result<Boxed<Member>, DocFault>
    ensures { IsReading (spec.path_member levels (under levels) (input_of cursor.old)) result (input_of cursor.new) }
{
    let span = cursor.place();
    let path = path(alloc, cursor)?;
    cursor.expect(Mark::Colon)?;
    if is_handler_path(&path) {
        return handled(alloc, levels, path, span, cursor);
    }
    initialised(alloc, levels, path, span, cursor)
}

// An initialiser behind its path and `:`.
#[tactic(auto, unfolding(qml_grammar::specs::Documents::initialised))]
#[cycle(decl)]
fn initialised(
    alloc: Global,
    levels: usize,
    path: Path,
    span: Span,
    cursor: &mut Cursor<'_>,
) -> Result<Boxed<Member>, DocFault>
    ensures { IsReading (spec.initialised levels (under levels) path span (input_of cursor.old)) result (input_of cursor.new) }
{
    let value = value(alloc, levels, cursor)?;
    Ok(initialiser(alloc, path, value, span)?)
}

// Groups

// A group, of which each entry is a member.
#[tactic(auto, unfolding(qml_grammar::specs::Documents::grouped))]
#[cycle(decl)]
fn group(alloc: Global, levels: usize, cursor: &mut Cursor<'_>) -> Result<Items<Member>, DocFault>
    ensures { IsReading (spec.grouped (under levels) (input_of cursor.old)) result (input_of cursor.new) }
{
    let name = cursor.any_name(alloc)?;
    inner_group(alloc, levels, &name, cursor)
}

// `{`, the entries of a group and `}`, one level further in. The next token is `{`.
#[cycle(decl)]
fn inner_group(
    alloc: Global,
    levels: usize,
    name: &Name,
    cursor: &mut Cursor<'_>,
) -> Result<Items<Member>, DocFault>
    ensures { IsReading ((under levels).group name.now (input_of cursor.old)) result (input_of cursor.new) }
{
    if levels == 0 {
        return Err(cursor.too_deep());
    }
    cursor.skip();
    entries(alloc, levels - 1, name, cursor)
}

// The entries of a group and `}`, behind `{`.
#[tactic(auto, unfolding(qml_grammar::specs::Documents::entries))]
#[cycle(decl)]
fn entries(
    alloc: Global,
    levels: usize,
    name: &Name,
    cursor: &mut Cursor<'_>,
) -> Result<Items<Member>, DocFault>
    ensures { IsReading (spec.entries levels (under levels) name.now (input_of cursor.old)) result (input_of cursor.new) }
{
    let entries = some_entries(alloc, levels, name, cursor)?;
    cursor.expect(Mark::CloseBrace)?;
    Ok(entries)
}

// The entries of a group up to `}` or to the end.
#[cycle(decl)]
fn some_entries(
    alloc: Global,
    levels: usize,
    name: &Name,
    cursor: &mut Cursor<'_>,
) -> Result<Items<Member>, DocFault>
    ensures { IsReading (while_next statements.goes_on_inside (spec.one_entry levels (under levels) name.now) [] (input_of cursor.old)) result (input_of cursor.new) }
{
    let mut entries = Items::new(alloc);
    // Each turn takes a token.
    for _turn in 0..cursor.left() {
        if !goes_on_inside(cursor) {
            return Ok(entries);
        }
        entries = one_entry(alloc, levels, name, entries, cursor)?;
    }
    Ok(entries)
}

// One more entry, behind others.
#[tactic(auto, unfolding(qml_grammar::specs::Documents::one_entry, qml_grammar::specs::Ends::ended, qml_expr::specs::Seen::input_of))]
#[cycle(decl)]
fn one_entry(
    alloc: Global,
    levels: usize,
    name: &Name,
    others: Items<Member>,
    cursor: &mut Cursor<'_>,
) -> Result<Items<Member>, DocFault>
    ensures { IsReading (spec.one_entry levels (under levels) name.now others (input_of cursor.old)) result (input_of cursor.new) }
{
    let before = cursor.rest;
    let entry = entry(alloc, levels, name, cursor)?;
    end(before, cursor)?;
    let mut entries = others;
    entries.push(entry.into_inner())?;
    Ok(entries)
}

// A name, `:` and a value in a group, without an end.
#[tactic(auto, unfolding(qml_grammar::specs::Documents::entry))]
#[cycle(decl)]
fn entry(
    alloc: Global,
    levels: usize,
    group: &Name,
    cursor: &mut Cursor<'_>,
) -> Result<Boxed<Member>, DocFault>
    ensures { IsReading (spec.entry levels (under levels) group.now (input_of cursor.old)) result (input_of cursor.new) }
{
    let span = cursor.place();
    let second = entry_name(alloc, cursor)?;
    cursor.expect(Mark::Colon)?;
    let value = value(alloc, levels, cursor)?;
    let path = Path {
        first: group.copy(alloc)?,
        second: Some(second),
    };
    Ok(initialiser(alloc, path, value, span)?)
}

// Members

// What the next token begins: one member, or those of a group.
#[tactic(auto, unfolding(qml_grammar::specs::Documents::member_in))]
#[cycle(decl)]
fn member(alloc: Global, levels: usize, cursor: &mut Cursor<'_>) -> Result<Items<Member>, DocFault>
    ensures { IsReading (spec.member_in levels (under levels) (input_of cursor.old)) result (input_of cursor.new) }
{
    if cursor.sees_word(Word::Id) {
        return id_member(alloc, cursor);
    }
    if cursor.sees_word(Word::Property) {
        return property_member(alloc, levels, cursor);
    }
    if cursor.sees_word(Word::ReadOnly) {
        return fixed_property_member(alloc, levels, cursor);
    }
    if cursor.sees_word(Word::Signal) {
        return signal_member(alloc, cursor);
    }
    other_member(alloc, levels, cursor)
}

// A method, or a member that no word begins.
#[tactic(auto, unfolding(qml_grammar::specs::Documents::other_member))]
#[cycle(decl)]
fn other_member(
    alloc: Global,
    levels: usize,
    cursor: &mut Cursor<'_>,
) -> Result<Items<Member>, DocFault>
    ensures { IsReading (spec.other_member levels (under levels) (input_of cursor.old)) result (input_of cursor.new) }
{
    if cursor.sees_word(Word::Function) {
        return method_member(alloc, levels, cursor);
    }
    if sees_unsupported_member(cursor) {
        return Err(unsupported(cursor));
    }
    if cursor.sees_word(Word::Else) {
        return Err(cursor.refusal());
    }
    named_member(alloc, levels, cursor)
}

// A child, a group, or a member of a path.
#[tactic(auto, unfolding(qml_grammar::specs::Documents::named_member))]
#[cycle(decl)]
fn named_member(
    alloc: Global,
    levels: usize,
    cursor: &mut Cursor<'_>,
) -> Result<Items<Member>, DocFault>
    ensures { IsReading (spec.named_member levels (under levels) (input_of cursor.old)) result (input_of cursor.new) }
{
    if begins_object(cursor) {
        return child(alloc, levels, cursor);
    }
    if begins_on(cursor) {
        cursor.skip();
        return Err(unsupported(cursor));
    }
    if is_dotted_type(cursor, Follower::BraceOrOn) {
        return Err(unsupported(cursor));
    }
    if begins_group(cursor) {
        return group(alloc, levels, cursor);
    }
    path_member(alloc, levels, cursor)
}

// An object inside the object.
#[tactic(auto, unfolding(qml_grammar::specs::Documents::child))]
#[cycle(decl)]
fn child(alloc: Global, levels: usize, cursor: &mut Cursor<'_>) -> Result<Items<Member>, DocFault>
    ensures { IsReading (spec.child (under levels) (input_of cursor.old)) result (input_of cursor.new) }
{
    let object = object(alloc, levels, cursor)?;
    let child = Boxed::new(alloc, Member::Child(object.into_inner()))?;
    Ok(alone(alloc, child)?)
}

// `{`, members and `}`, one level further in. The next token is `{`.
#[cycle(decl)]
fn inner_members(
    alloc: Global,
    levels: usize,
    cursor: &mut Cursor<'_>,
) -> Result<Items<Member>, DocFault>
    ensures { IsReading ((under levels).members (input_of cursor.old)) result (input_of cursor.new) }
{
    if levels == 0 {
        return Err(cursor.too_deep());
    }
    cursor.skip();
    members(alloc, levels - 1, cursor)
}

// Members and `}`, behind `{`.
#[tactic(auto, unfolding(qml_grammar::specs::Documents::members))]
#[cycle(decl)]
fn members(alloc: Global, levels: usize, cursor: &mut Cursor<'_>) -> Result<Items<Member>, DocFault>
    ensures { IsReading (spec.members levels (under levels) (input_of cursor.old)) result (input_of cursor.new) }
{
    let members = some_members(alloc, levels, cursor)?;
    cursor.expect(Mark::CloseBrace)?;
    Ok(members)
}

// Members up to `}` or to the end.
#[cycle(decl)]
fn some_members(
    alloc: Global,
    levels: usize,
    cursor: &mut Cursor<'_>,
) -> Result<Items<Member>, DocFault>
    ensures { IsReading (while_next statements.goes_on_inside (spec.one_member levels (under levels)) [] (input_of cursor.old)) result (input_of cursor.new) }
{
    let mut members = Items::new(alloc);
    // Each turn takes a token.
    for _turn in 0..cursor.left() {
        if !goes_on_inside(cursor) {
            return Ok(members);
        }
        members = one_member(alloc, levels, members, cursor)?;
    }
    Ok(members)
}

// One more member, or those of one more group, behind others.
#[tactic(auto, unfolding(qml_grammar::specs::Documents::one_member))]
#[cycle(decl)]
fn one_member(
    alloc: Global,
    levels: usize,
    others: Items<Member>,
    cursor: &mut Cursor<'_>,
) -> Result<Items<Member>, DocFault>
    ensures { IsReading (spec.one_member levels (under levels) others (input_of cursor.old)) result (input_of cursor.new) }
{
    let more = member(alloc, levels, cursor)?;
    let mut members = others;
    members.append(more)?;
    Ok(members)
}
