ghost use Rattle.std.specs.Prelude.{◌≡◌, ◌≢◌, true, false, map, OnOk, IfOk, IfErr};
ghost use Rattle.std.specs.Option.{option_copied};
ghost use Rattle.qml_ast.specs.declared.fault.LoadFault.TheVariants as load;
ghost use Rattle.type_loader.specs.Cycles.{HasNoCycle, Reaches, AreClosed, IsCycle, followed, mentioned_by};
ghost use Rattle.type_loader.specs.Sources.{source_named};

use crate::names::Names;
use crate::source::Source;
use qml_ast::{LoadFault, Name};
use qml_types::Mention;
use std::alloc::{AllocError, Global};

/// The document of the type of that name.
pub(crate) fn source_named<'a>(sources: &'a [Source], name: &Name) -> Option<&'a Source>
    ensures { option_copied result ≡ source_named sources.now name.now }
{
    sources.iter().find(|source| name.is(&source.name))
}

/// What the document of the type of that name mentions, if there is one.
pub(crate) fn mentioned_by<'a>(sources: &'a [Source], name: &Name) -> &'a [Mention]
    ensures { map (λ m. m.name) result.now ≡ mentioned_by sources.now name.now }
{
    match source_named(sources, name) {
        Some(source) => source.mentions.as_slice(),
        None => &[],
    }
}

/// That no document leads to itself by mentions, or the first that does.
pub(crate) fn no_cycle(alloc: Global, sources: &[Source]) -> Result<(), LoadFault>
    requires { AreClosed sources.now }
    ensures none { OnOk result (HasNoCycle sources.now) }
    ensures first { IfErr result (λ fault. fault ≢ load.NoMemory → IsCycle sources.now fault) }
{
    for source in sources {
        if reaches_itself(alloc, sources, &source.name)? {
            let name = source.file.copy(alloc)?;
            return Err(LoadFault::Cycle { name });
        }
    }
    Ok(())
}

/// Whether the type leads to itself by mentions.
#[tactic(auto, using(crate::proofs::Cycling::found_first, crate::proofs::Cycling::found_next, crate::proofs::Cycling::none_found))]
fn reaches_itself(alloc: Global, sources: &[Source], name: &Name) -> Result<bool, AllocError>
    requires { AreClosed sources.now }
    ensures yes { IfOk result (λ is. is ≡ true → Reaches sources.now name.now name.now) }
    ensures no { IfOk result (λ is. is ≡ false → Reaches sources.now name.now name.now → ⊥) }
{
    let mut found = Names::new(alloc);
    found.add_all(alloc, mentioned_by(sources, name))?;
    for place in 0..sources.len() {
        follow(alloc, sources, place, &mut found)?;
    }
    Ok(found.has(name))
}

/// Adds what the document of the name of that place mentions.
fn follow(
    alloc: Global,
    sources: &[Source],
    place: usize,
    found: &mut Names,
) -> Result<(), AllocError>
    ensures { OnOk result (found.new ≡ followed sources.now place found.old) }
{
    let Some(name) = found.at(place) else {
        return Ok(());
    };
    let mentions = mentioned_by(sources, name);
    found.add_all(alloc, mentions)
}
