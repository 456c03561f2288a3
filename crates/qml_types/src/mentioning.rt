ghost use Rattle.std.specs.Prelude.{◌≡◌, fold, map, IfOk, OnOk};
ghost use Rattle.std.specs.List.{flat_map};
ghost use Rattle.qml_types.specs.Mentions.{mentions_of, with_mention};
ghost use Rattle.qml_types.specs.Readings.{part_of, given_of, reading_of, type_in, types_in, types_given, param_types};

use crate::handling::begins_upper;
use crate::mention::Mention;
use crate::names::Names;
use qml_ast::{Decl, Document, Init, Member, Name, SignalParam, Span};
use sqlite_items::Items;
use std::alloc::{AllocError, Global};
use type_table::builtin;

// Adds a mention of a type, unless the type is built in or was mentioned before.
#[tactic(auto, using(std::proofs::lemmas::Grind::common_steps), unfolding(crate::specs::Mentions::with_mention))]
fn mention(
    alloc: Global,
    name: &Name,
    at: Span,
    names: &mut Names,
    mentions: &mut Items<Mention>,
) -> Result<(), AllocError>
    requires { names.old ≡ map (λ m. m.name) mentions.old }
    ensures kept { OnOk result (names.new ≡ map (λ m. m.name) mentions.new) }
    ensures added { OnOk result (mentions.new ≡ with_mention mentions.old (record { name = name.now; span = at })) }
{
    if builtin(name.as_str()).is_some() {
        return Ok(());
    }
    if !names.add(alloc, name.as_str())? {
        return Ok(());
    }
    let name = name.copy(alloc)?;
    mentions.push(Mention { name, span: at })
}

// Adds a mention of a type that a kind names.
fn mention_kind(
    alloc: Global,
    kind: &Name,
    at: Span,
    names: &mut Names,
    mentions: &mut Items<Mention>,
) -> Result<(), AllocError>
    requires { names.old ≡ map (λ m. m.name) mentions.old }
    ensures kept { OnOk result (names.new ≡ map (λ m. m.name) mentions.new) }
    ensures added { OnOk result (mentions.new ≡ fold with_mention mentions.old (type_in kind.now at)) }
{
    if begins_upper(kind.as_bytes()) {
        mention(alloc, kind, at, names, mentions)
    } else {
        Ok(())
    }
}

// Adds the types that the kinds of a signal's parameters name.
fn mention_params(
    alloc: Global,
    params: &[SignalParam],
    names: &mut Names,
    mentions: &mut Items<Mention>,
) -> Result<(), AllocError>
    requires { names.old ≡ map (λ m. m.name) mentions.old }
    ensures kept { OnOk result (names.new ≡ map (λ m. m.name) mentions.new) }
    ensures added { OnOk result (mentions.new ≡ fold with_mention mentions.old (param_types params.now)) }
{
    for param in params {
        mention_kind(alloc, &param.kind, param.kind_span, names, mentions)?;
    }
    Ok(())
}

// Adds the types that an object's declaration names.
#[cycle(mentions)]
fn mention_object(
    alloc: Global,
    decl: &Decl,
    names: &mut Names,
    mentions: &mut Items<Mention>,
) -> Result<(), AllocError>
    requires { names.old ≡ map (λ m. m.name) mentions.old }
    ensures kept { OnOk result (names.new ≡ map (λ m. m.name) mentions.new) }
    ensures added { OnOk result (mentions.new ≡ fold with_mention mentions.old (reading_of decl.now).types) }
{
    mention(alloc, &decl.name, decl.span, names, mentions)?;
    mention_members(alloc, decl.members.as_slice(), names, mentions)?;
    Ok(())
}

#[cycle(mentions)]
fn mention_members(
    alloc: Global,
    members: &[Member],
    names: &mut Names,
    mentions: &mut Items<Mention>,
) -> Result<(), AllocError>
    requires { names.old ≡ map (λ m. m.name) mentions.old }
    ensures kept { OnOk result (names.new ≡ map (λ m. m.name) mentions.new) }
    ensures added { OnOk result (mentions.new ≡ fold with_mention mentions.old (flat_map types_in (map part_of members.now))) }
{
    for member in members {
        mention_member(alloc, member, names, mentions)?;
    }
    Ok(())
}

#[cycle(mentions)]
#[tactic(auto, using(std::proofs::lemmas::Grind::common_steps), unfolding(crate::specs::Readings::types_in))]
fn mention_member(
    alloc: Global,
    member: &Member,
    names: &mut Names,
    mentions: &mut Items<Mention>,
) -> Result<(), AllocError>
    requires { names.old ≡ map (λ m. m.name) mentions.old }
    ensures kept { OnOk result (names.new ≡ map (λ m. m.name) mentions.new) }
    ensures added { OnOk result (mentions.new ≡ fold with_mention mentions.old (types_in (part_of member.now))) }
{
    match member {
        Member::Property {
            kind,
            init: Some(init),
            kind_span,
            ..
        } => {
            mention_kind(alloc, kind, *kind_span, names, mentions)?;
            mention_given(alloc, init, names, mentions)
        }
        Member::Property {
            kind,
            init: None,
            kind_span,
            ..
        } => mention_kind(alloc, kind, *kind_span, names, mentions),
        Member::Signal { params, .. } => {
            mention_params(alloc, params.as_slice(), names, mentions)
        }
        Member::Init { init, .. } => mention_given(alloc, init, names, mentions),
        Member::Child(child) => mention_object(alloc, child, names, mentions),
        Member::Id(..) | Member::Handler { .. } | Member::Method { .. } => Ok(()),
    }
}

#[cycle(mentions)]
fn mention_given(
    alloc: Global,
    init: &Init,
    names: &mut Names,
    mentions: &mut Items<Mention>,
) -> Result<(), AllocError>
    requires { names.old ≡ map (λ m. m.name) mentions.old }
    ensures kept { OnOk result (names.new ≡ map (λ m. m.name) mentions.new) }
    ensures added { OnOk result (mentions.new ≡ fold with_mention mentions.old (types_given (given_of init.now))) }
{
    match init {
        Init::Object(object) => mention_object(alloc, object.get(), names, mentions),
        Init::Expr(_) => Ok(()),
    }
}

/// The types that a document names and the engine has not, each with the first place where it is named, in
/// the order of these places: types of objects, and kinds of properties and of signals' parameters that
/// begin with an upper-case letter.
#[tactic(auto, unfolding(crate::specs::Mentions::mentions_of))]
pub fn mentions(alloc: Global, document: &Document) -> Result<Items<Mention>, AllocError>
    ensures { IfOk result (λ mentions. mentions ≡ mentions_of document.now) }
{
    let mut found = Items::new(alloc);
    let mut names = Names::new(alloc);
    mention_object(alloc, &document.root, &mut names, &mut found)?;
    Ok(found)
}
