ghost use Rattle.std.specs.Prelude.{◌≡◌, ◌⊎◌, find, IsSome, nat_eq};
ghost use Rattle.std.specs.Cmp.Lexicographic.{pointwise};
ghost use Rattle.std.specs.Option.{option_copied, option_map};
ghost use Rattle.qml_ast.specs.declared.fault.LoadFault.TheVariants as load;
ghost use Rattle.type_loader.specs.Faults.{IsTold, first_mention, mention_in};
ghost use Rattle.type_loader.specs.Naming.{file_of};
ghost use Rattle.type_loader.specs.declared.flaw.Flaw.TheVariants as flaws;

use crate::flaw::Flaw;
use crate::source::Source;
use qml_ast::{At, DocFault, LoadFault, Name};
use qml_types::Mention;
use std::alloc::Global;

/// Where a document mentions this name.
fn mention_in<'a>(source: &'a Source, name: &Name) -> Option<&'a Mention>
    ensures { option_copied result ≡ mention_in source.now name.now }
{
    source
        .mentions
        .as_slice()
        .iter()
        .find(|mention| name.is(&mention.name))
}

/// Where the first of the documents that mentions this name does.
fn first_mention<'a>(sources: &'a [Source], name: &Name) -> Option<At<'a>>
    ensures { option_map (λ at. (at.file.now, at.span)) result ≡ first_mention sources.now name.now }
{
    for source in sources {
        if let Some(mention) = mention_in(source, name) {
            return Some(At {
                file: &source.file,
                span: mention.span,
            });
        }
    }
    None
}

/// That the type is not known, at a place, or that memory ran out.
fn unknown_type(alloc: Global, at: At<'_>) -> LoadFault
    ensures { (result ≡ load.Doc at.entry.file.now (DocFault.UnknownType at.entry.span)) ⊎ (result ≡ load.NoMemory) }
{
    let Ok(name) = at.file.copy(alloc) else {
        return LoadFault::NoMemory;
    };
    LoadFault::Doc {
        name,
        fault: DocFault::UnknownType { at: at.span },
    }
}

/// What is told of a type whose name no file may have, which these documents mention.
pub(crate) fn unlawful(alloc: Global, sources: &[Source], name: &Name) -> LoadFault
    requires { IsSome (first_mention sources.now name.now) }
    ensures { IsTold sources.now name.now flaws.Missing result }
{
    match first_mention(sources, name) {
        Some(at) => unknown_type(alloc, at),
        None => unreachable!(),
    }
}

/// What is told of the flaw of a type's document, where these documents come before it.
pub(crate) fn told(
    alloc: Global,
    sources: &[Source],
    name: &Name,
    file: Name,
    flaw: Flaw,
) -> LoadFault
    requires { file ≡ file_of name.now }
    ensures { IsTold sources.now name.now flaw result }
{
    match flaw {
        Flaw::Missing => missing(alloc, sources, name, file),
        Flaw::TooLong => LoadFault::TooLong { name: file },
        Flaw::Doc(fault) => LoadFault::Doc { name: file, fault },
        Flaw::Read => LoadFault::Read,
        Flaw::NoMemory => LoadFault::NoMemory,
    }
}

/// What is told of a file that is missing.
fn missing(alloc: Global, sources: &[Source], name: &Name, file: Name) -> LoadFault
    requires { file ≡ file_of name.now }
    ensures { IsTold sources.now name.now flaws.Missing result }
{
    match first_mention(sources, name) {
        Some(at) => unknown_type(alloc, at),
        None => LoadFault::Missing { name: file },
    }
}
