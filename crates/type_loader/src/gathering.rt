ghost use Rattle.std.specs.Prelude.{◌≡◌, ◌≤◌, IfOk, IfErr, OnOk, IsSome};
ghost use Rattle.type_loader.specs.Faults.{first_mention};
ghost use Rattle.type_loader.specs.Loads.{AreGathered, IsGrownBy, IsHalted, IsStopped};
ghost use Rattle.type_loader.specs.Naming.{file_of, IsLawful};

use crate::cache::Cache;
use crate::fetching::taken;
use crate::names::Names;
use crate::source::Source;
use outside::Files;
use qml_ast::{LoadFault, Name};
use sqlite_items::Items;
use std::alloc::Global;

/// The most documents that a load may read.
pub(crate) const LIST_LIMIT: usize = 256;

/// The documents of the list that begins with this type, in the order in which the list grows, or why it
/// has no end. What is read is kept.
pub(crate) fn gathered<F: Files>(
    alloc: Global,
    files: &mut F,
    cache: &mut Cache,
    root: Name,
) -> Result<Items<Source>, LoadFault>
    requires { IsLawful (file_of root) }
    ensures held { F.held files.new ≡ F.held files.old }
    ensures later { F.faults files.old ≤ F.faults files.new }
    ensures gathered { IfOk result (AreGathered (F.held files.old) cache.old cache.new files.old files.new root) }
    ensures stopped { IfErr result (IsStopped (F.held files.old) cache.old cache.new files.old files.new
        (F.faults files.old) (F.faults files.new) root) }
{
    let mut names = Names::new(alloc);
    names.add(root)?;
    let mut sources = Items::new(alloc);
    for count in 0..LIST_LIMIT {
        let Some(name) = names.at(count) else {
            return Ok(sources);
        };
        let name = name.copy(alloc)?;
        grow(alloc, files, cache, name, &mut names, &mut sources)?;
    }
    if LIST_LIMIT < names.len() {
        return Err(LoadFault::TooMany);
    }
    Ok(sources)
}

/// Takes the document of the type of that name, which is next behind these documents, and names what it
/// mentions; or says why there is none.
fn grow<F: Files>(
    alloc: Global,
    files: &mut F,
    cache: &mut Cache,
    name: Name,
    names: &mut Names,
    sources: &mut Items<Source>,
) -> Result<(), LoadFault>
    requires { (IsLawful (file_of name) → ⊥) → IsSome (first_mention sources.old name) }
    ensures held { F.held files.new ≡ F.held files.old }
    ensures later { F.faults files.old ≤ F.faults files.new }
    ensures grown { OnOk result (IsGrownBy (F.held files.old) cache.old cache.new files.old files.new name names.old names.new sources.old sources.new) }
    ensures halted { IfErr result (IsHalted (F.held files.old) cache.old cache.new files.old files.new
        (F.faults files.old) (F.faults files.new) sources.old name) }
{
    let source = taken(alloc, files, cache, name, sources.as_slice())?;
    names.add_all(alloc, source.mentions.as_slice())?;
    sources.push(source)?;
    Ok(())
}
