ghost use Rattle.std.specs.Prelude.{◌≡◌, ◌≤◌, length, Some, IfOk, IfErr};
ghost use Rattle.std.specs.List.{All};
ghost use Rattle.outside.specs.Count.{Rose};
ghost use Rattle.outside.specs.Store.{Store};
ghost use Rattle.qml_ast.specs.declared.fault.LoadFault.TheVariants as load;
ghost use Rattle.qml_types.specs.Sized.{IsSized};
ghost use Rattle.type_loader.specs.Entries.{IsSound};
ghost use Rattle.type_loader.specs.Loads.{IsLoaded, IsToldFault, IsUnloaded};
ghost use Rattle.type_loader.specs.Naming.{file_of};
ghost use Rattle.type_loader.specs.Sources.{AreAll};
ghost use Rattle.type_loader.specs.Units.{AreMadeTo, HasUnit, IsNotMade};

use crate::cache::Cache;
use crate::compiling::{components_of, made_all};
use crate::cycle::no_cycle;
use crate::gathering::gathered;
use crate::naming::type_of;
use crate::order::in_order;
use crate::source::Source;
use crate::unit::Unit;
use outside::Files;
use qml_ast::{LoadFault, Name};
use std::alloc::Global;

/// The unit of a document: the component types of all documents of its list. The name is that of the
/// document's file and has at most 65,536 bytes.
///
/// The list begins with the document and grows by the types that each document of it mentions, in the
/// order in which they are mentioned first; `A` is the file `A.qml`. Each document of the list is had from
/// the cache, or else fetched, parsed and kept, before the next one is. Then they are compiled, each behind
/// those that it mentions.
///
/// The first of these is the fault. `Missing`: the document has no file, or a name that no document may
/// have, which is one without `.qml` at its end, of fewer than 5 or more than 255 bytes, or with a slash or
/// a zero byte. `Doc` with `UnknownType`: the same of a type, at its first mention in the first document of
/// the list that mentions it. `TooLong`: a file has more than 1,048,576 bytes. `Doc`: a file's text is no
/// document. `TooMany`: 256 documents are parsed and one more is named. `Cycle`: a document leads to itself
/// by mentions, and this is the first in the list. `Doc`: a document does not compile, with its fault. In
/// the place of each of them may stand `Read`, where a file could not be read, and `NoMemory`.
///
/// Each component type of a unit keeps its sizes.
///
/// After each answer but `NoMemory` the cache has what it had and each document of the list that was
/// parsed; after a unit these are all.
///
/// Types in other documents are those of the Qt 5 QML Reference (Defining Object Types through QML Documents).
pub fn load<F: Files>(
    alloc: Global,
    files: &mut F,
    name: &str,
    cache: &mut Cache,
) -> Result<Unit, LoadFault>
    requires { length name.now ≤ 65536 }
    ensures held { F.held files.new ≡ F.held files.old }
    ensures later { F.faults files.old ≤ F.faults files.new }
    ensures loaded { IfOk result (IsLoaded (F.held files.old) cache.old cache.new files.old files.new name.now) }
    ensures unloaded { IfErr result (IsUnloaded (F.held files.old) cache.old cache.new files.old files.new
        (F.faults files.old) (F.faults files.new) name.now) }
    ensures sized { IfOk result (λ unit. All IsSized unit.components) }

    // Where the files are told and the cache has what they hold.
    ensures unit { (told : Store) → F.held files.old ≡ Some told → IsSound told cache.old → IfOk result (HasUnit told name.now) }
    ensures fault { (told : Store) → F.held files.old ≡ Some told → IsSound told cache.old → IfErr result (IsToldFault told name.now) }
    ensures sound { (told : Store) → F.held files.old ≡ Some told → IsSound told cache.old → IsSound told cache.new }
    ensures read { IfErr result (λ fault. fault ≡ load.Read → Rose (F.faults files.old) (F.faults files.new)) }
{
    listed(alloc, files, name, cache)
}

/// The same, as far as the list of documents says it.
#[tactic(auto, using(crate::proofs::Uniting::unloaded_at))]
fn listed<F: Files>(
    alloc: Global,
    files: &mut F,
    name: &str,
    cache: &mut Cache,
) -> Result<Unit, LoadFault>
    requires { length name.now ≤ 65536 }
    ensures held { F.held files.new ≡ F.held files.old }
    ensures later { F.faults files.old ≤ F.faults files.new }
    ensures loaded { IfOk result (IsLoaded (F.held files.old) cache.old cache.new files.old files.new name.now) }
    ensures unloaded { IfErr result (IsUnloaded (F.held files.old) cache.old cache.new files.old files.new
        (F.faults files.old) (F.faults files.new) name.now) }
{
    let Some(root) = type_of(name) else {
        let name = Name::new(alloc, name)?;
        return Err(LoadFault::Missing { name });
    };
    let root = Name::new(alloc, root)?;
    let file = Name::new(alloc, name)?;
    let sources = gathered(alloc, files, cache, root.copy(alloc)?)?;
    unit_of(alloc, &root, file, sources.as_slice())
}

/// The unit of the documents of a list, or the first fault of them together.
#[tactic(auto, using(crate::proofs::Uniting::not_made_by_cycle, crate::proofs::Uniting::not_made_by_fault, crate::proofs::Uniting::not_made_by_memory))]
fn unit_of(alloc: Global, root: &Name, file: Name, sources: &[Source]) -> Result<Unit, LoadFault>
    requires all { AreAll root.now sources.now }
    requires file { file ≡ file_of root.now }
    ensures made { IfOk result (AreMadeTo root.now sources.now) }
    ensures refused { IfErr result (IsNotMade root.now sources.now) }
{
    no_cycle(alloc, sources)?;
    let order = in_order(alloc, sources, root)?;
    let made = made_all(alloc, sources, order.as_slice())?;
    let components = components_of(alloc, made.as_slice(), sources)?;
    Ok(Unit {
        name: file,
        components,
    })
}
