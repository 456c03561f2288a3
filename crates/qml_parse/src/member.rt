ghost use Rattle.std.specs.Prelude.{◌≡◌, [], ◌∷◌, IfOk};
ghost use Rattle.qml_ast.specs.declared.decl.Member.TheVariants as mm;
ghost use Rattle.qml_grammar.specs.Documents as spec;
ghost use Rattle.qml_grammar.specs.Ends.{ended};
ghost use Rattle.qml_expr.specs.Readings.{IsReading};
ghost use Rattle.qml_expr.specs.Seen.{input_of};

use crate::lookahead::unsupported;
use crate::method::method;
use crate::signal::{kind, signal};
use crate::value::Valued;
use qml_ast::{DocFault, Init, Member, Name, Path, Span};
use qml_expr::Cursor;
use qml_grammar::{Mark, Word};
use qml_stmt::{end, statement};
use shared_value::Shared;
use sqlite_items::{Boxed, Items};
use std::alloc::{AllocError, Global};

/// A member alone, as a list.
pub(crate) fn alone(alloc: Global, member: Boxed<Member>) -> Result<Items<Member>, AllocError>
    ensures { IfOk result (λ members. members ≡ member ∷ []) }
{
    let mut members = Items::new(alloc);
    members.push(member.into_inner())?;
    Ok(members)
}

// `id`, `:` and a name, without an end.
#[tactic(auto, unfolding(qml_grammar::specs::Documents::id_member))]
fn id_alone(alloc: Global, cursor: &mut Cursor<'_>) -> Result<Boxed<Member>, DocFault>
    ensures { IsReading (spec.id_member (input_of cursor.old)) result (input_of cursor.new) }
{
    cursor.skip();
    cursor.expect(Mark::Colon)?;
    let span = cursor.place();
    let name = cursor.any_name(alloc)?;
    Ok(Boxed::new(alloc, Member::Id(name, span))?)
}

/// An object's id.
#[tactic(auto, unfolding(qml_grammar::specs::Documents::alone, qml_grammar::specs::Ends::ended, qml_expr::specs::Seen::input_of))]
pub(crate) fn id_member(alloc: Global, cursor: &mut Cursor<'_>) -> Result<Items<Member>, DocFault>
    ensures { IsReading (spec.alone (ended spec.id_member) (input_of cursor.old)) result (input_of cursor.new) }
{
    let before = cursor.rest;
    let member = id_alone(alloc, cursor)?;
    end(before, cursor)?;
    Ok(alone(alloc, member)?)
}

/// A declared signal.
#[tactic(auto, unfolding(qml_grammar::specs::Documents::alone, qml_grammar::specs::Ends::ended, qml_expr::specs::Seen::input_of))]
pub(crate) fn signal_member(
    alloc: Global,
    cursor: &mut Cursor<'_>,
) -> Result<Items<Member>, DocFault>
    ensures { IsReading (spec.alone (ended spec.signal_member) (input_of cursor.old)) result (input_of cursor.new) }
{
    let before = cursor.rest;
    let member = signal(alloc, cursor)?;
    end(before, cursor)?;
    Ok(alone(alloc, member)?)
}

/// A declared method.
#[tactic(auto, unfolding(qml_grammar::specs::Documents::alone))]
pub(crate) fn method_member(
    alloc: Global,
    levels: usize,
    cursor: &mut Cursor<'_>,
) -> Result<Items<Member>, DocFault>
    ensures { IsReading (spec.alone (spec.method levels) (input_of cursor.old)) result (input_of cursor.new) }
{
    let member = method(alloc, levels, cursor)?;
    Ok(alone(alloc, member)?)
}

/// The name of a property's kind.
#[tactic(auto, unfolding(qml_grammar::specs::Documents::property_kind))]
pub(crate) fn property_kind(alloc: Global, cursor: &mut Cursor<'_>) -> Result<Name, DocFault>
    ensures { IsReading (spec.property_kind (input_of cursor.old)) result (input_of cursor.new) }
{
    if cursor.sees_word(Word::Alias) {
        return Err(unsupported(cursor));
    }
    kind(alloc, cursor)
}

/// A handler behind its path and `:`.
#[tactic(auto, unfolding(qml_grammar::specs::Documents::handled))]
pub(crate) fn handled(
    alloc: Global,
    levels: usize,
    path: Path,
    span: Span,
    cursor: &mut Cursor<'_>,
) -> Result<Boxed<Member>, DocFault>
    ensures { IsReading (spec.handled levels path span (input_of cursor.old)) result (input_of cursor.new) }
{
    let body = statement(alloc, levels, cursor)?;
    let body = Shared::new(alloc, body)?;
    Ok(Boxed::new(alloc, Member::Handler { path, body, span })?)
}

/// What a property declares before its value.
#[derive(Drop)]
pub(crate) struct Declared {
    /// Whether `readonly` stands before it.
    pub fixed: bool,
    pub kind: Name,
    /// Where the kind stands.
    pub kind_span: Span,
    pub name: Name,
    /// Where the name stands.
    pub span: Span,
}

// What a box holds, if there is one.
fn unboxed(init: Option<Boxed<Init>>) -> Option<Init>
    ensures { result ≡ init }
{
    init.map(|init| init.into_inner())
}

/// The property of a declaration, with its value where it has one.
pub(crate) fn property_of(
    alloc: Global,
    declared: Declared,
    init: Option<Boxed<Init>>,
    value_span: Span,
) -> Result<Boxed<Member>, AllocError>
    ensures { IfOk result (λ member. member ≡ mm.Property declared.fixed declared.kind declared.name init declared.kind_span value_span declared.span) }
{
    let Declared {
        fixed,
        kind,
        kind_span,
        name,
        span,
    } = declared;
    Boxed::new(
        alloc,
        Member::Property {
            fixed,
            kind,
            name,
            init: unboxed(init),
            kind_span,
            value_span,
            span,
        },
    )
}

/// The initialiser of a path.
pub(crate) fn initialiser(
    alloc: Global,
    path: Path,
    value: Valued,
    span: Span,
) -> Result<Boxed<Member>, AllocError>
    ensures { IfOk result (λ member. member ≡ mm.Init path value.init value.span span) }
{
    let Valued {
        init,
        span: value_span,
    } = value;
    Boxed::new(
        alloc,
        Member::Init {
            path,
            init: init.into_inner(),
            value_span,
            span,
        },
    )
}
