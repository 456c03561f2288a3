ghost use Rattle.std.specs.Prelude.{◌≡◌, ◌≢◌, ◌≤◌, length, None, IfOk, IfErr, IsSome};
ghost use Rattle.std.specs.FinMap.{get};
ghost use Rattle.outside.specs.Store.{Store};
ghost use Rattle.qml_ast.specs.declared.fault.LoadFault.TheVariants as load;
ghost use Rattle.type_loader.specs.Faults.{IsFlawOf, HasFlaw, first_mention};
ghost use Rattle.type_loader.specs.Loads.{IsHad, IsWithout, IsTaken, IsHalted, source_with};
ghost use Rattle.type_loader.specs.Naming.{file_of, IsLawful};
ghost use Rattle.type_loader.specs.Sources.{HasDocument};

use crate::cache::Cache;
use crate::flaw::Flaw;
use crate::naming::{file_name, has_lawful_file};
use crate::source::Source;
use crate::telling::{told, unlawful};
use outside::{Fetch, Files};
use qml_ast::{DocFault, Document, LoadFault, Name};
use qml_parse::parse;
use qml_types::mentions;
use shared_value::Shared;
use std::alloc::Global;

/// The most bytes that a document may have.
pub(crate) const DOCUMENT_LIMIT: usize = 1_048_576;

/// The document of a file, or why it is not there.
fn fetched<F: Files>(alloc: Global, files: &mut F, file: &str) -> Result<Shared<Document>, Flaw>
    ensures held { F.held files.new ≡ F.held files.old }
    ensures later { F.faults files.old ≤ F.faults files.new }
    ensures read { IfOk result (λ document. (told : Store) → F.held files.old ≡ Some told → HasDocument (get told file.now) document) }
    ensures refused { IfErr result (IsFlawOf (F.held files.old) file.now (F.faults files.old) (F.faults files.new)) }
{
    let mut bytes = Vec::new(alloc);
    match files.fetch(file, DOCUMENT_LIMIT, &mut bytes) {
        Fetch::Found => parsed(alloc, bytes.as_slice()),
        Fetch::Missing => Err(Flaw::Missing),
        Fetch::TooLong => Err(Flaw::TooLong),
        Fetch::Failed => Err(Flaw::Read),
        Fetch::NoMemory => Err(Flaw::NoMemory),
    }
}

/// The document that a text spells, or its fault.
fn parsed(alloc: Global, bytes: &[u8]) -> Result<Shared<Document>, Flaw>
    requires { length bytes.now ≤ DOCUMENT_LIMIT }
    ensures read { IfOk result (λ document. HasDocument (Some bytes.now) document) }
    ensures refused { IfErr result (λ flaw. flaw ≢ Flaw.NoMemory → HasFlaw (Some bytes.now) flaw) }
{
    match parse(alloc, bytes) {
        Ok(document) => Ok(Shared::new(alloc, document)?),
        Err(DocFault::NoMemory) => Err(Flaw::NoMemory),
        Err(fault) => Err(Flaw::Doc(fault)),
    }
}

/// The document of a file: the one that is kept, or else the one that is fetched, which is then kept.
fn had<F: Files>(
    alloc: Global,
    files: &mut F,
    cache: &mut Cache,
    file: &Name,
) -> Result<Shared<Document>, Flaw>
    ensures held { F.held files.new ≡ F.held files.old }
    ensures later { F.faults files.old ≤ F.faults files.new }
    ensures had { IfOk result (IsHad (F.held files.old) cache.old cache.new files.old files.new file.now) }
    ensures without { IfErr result (IsWithout (F.held files.old) cache.old cache.new files.old files.new
        (F.faults files.old) (F.faults files.new) file.now) }
{
    if let Some(document) = cache.get(file)? {
        return Ok(document);
    }
    let document = fetched(alloc, files, file.as_str())?;
    cache.keep(file.copy(alloc)?, document.share()?)?;
    Ok(document)
}

/// The document of the type of that name, which is next behind these documents: from the cache, or from
/// the files, and then it is kept; or why there is none.
#[tactic(auto, using(crate::proofs::Taking::halted_by_name, crate::proofs::Taking::halted_at_once, crate::proofs::Taking::halted_by_flaw, crate::proofs::Taking::halted_behind))]
pub(crate) fn taken<F: Files>(
    alloc: Global,
    files: &mut F,
    cache: &mut Cache,
    name: Name,
    sources: &[Source],
) -> Result<Source, LoadFault>
    requires { (IsLawful (file_of name) → ⊥) → IsSome (first_mention sources.now name) }
    ensures held { F.held files.new ≡ F.held files.old }
    ensures later { F.faults files.old ≤ F.faults files.new }
    ensures taken { IfOk result (IsTaken (F.held files.old) cache.old cache.new files.old files.new name) }
    ensures halted { IfErr result (IsHalted (F.held files.old) cache.old cache.new files.old files.new
        (F.faults files.old) (F.faults files.new) sources.now name) }
{
    if !has_lawful_file(name.as_bytes()) {
        return Err(unlawful(alloc, sources, &name));
    }
    let file = file_name(alloc, name.as_str())?;
    match had(alloc, files, cache, &file) {
        Ok(document) => source_of(alloc, name, file, document),
        Err(flaw) => Err(told(alloc, sources, &name, file, flaw)),
    }
}

/// The document with what it mentions.
fn source_of(
    alloc: Global,
    name: Name,
    file: Name,
    document: Shared<Document>,
) -> Result<Source, LoadFault>
    ensures made { IfOk result (λ source. source ≡ source_with name file document) }
    ensures memory { IfErr result (λ fault. fault ≡ load.NoMemory) }
{
    let mentions = mentions(alloc, document.get())?;
    Ok(Source {
        name,
        file,
        document,
        mentions,
    })
}
