ghost use Rattle.std.specs.Prelude.{◌≡◌, ◌≢◌, ◌++◌, [], Some, Ok, Err, OnOk, IfOk, IfErr};
ghost use Rattle.std.specs.Option.{option_copied, option_to_list};
ghost use Rattle.qml_ast.specs.declared.fault.LoadFault.TheVariants as load;
ghost use Rattle.type_loader.specs.Order.{component_named, components_of, known_of, IsFaultOf, made_by, made_with};
ghost use Rattle.qml_types.specs.Compiled.{compiled};
ghost use Rattle.qml_types.specs.Sized.{IsSized};

use crate::cycle::source_named;
use crate::made::Made;
use crate::names::Names;
use crate::source::Source;
use qml_ast::{DocFault, LoadFault, Name};
use qml_types::{ComponentType, Known, compile};
use shared_value::Shared;
use sqlite_items::Items;
use std::alloc::{AllocError, Global};

/// The component types of the documents of these names, compiled one after another, or the first fault.
pub(crate) fn made_all(
    alloc: Global,
    sources: &[Source],
    order: &[Name],
) -> Result<Items<Made>, LoadFault>
    ensures made { IfOk result (λ made. made_by sources.now [] order.now ≡ Ok made) }
    ensures refused { IfErr result (λ fault. fault ≢ load.NoMemory → made_by sources.now [] order.now ≡ Err fault) }
{
    let mut known = Known::new(alloc);
    let mut made = Items::new(alloc);
    for name in order {
        if let Some(source) = source_named(sources, name) {
            make(alloc, source, &mut known, &mut made)?;
        }
    }
    Ok(made)
}

/// Compiles a document over what is known, unless it was compiled before.
#[tactic(auto, using(crate::proofs::Making::none_known, crate::proofs::Making::made_before, crate::proofs::Making::made_new, crate::proofs::Making::made_faulty))]
fn make(
    alloc: Global,
    source: &Source,
    known: &mut Known,
    made: &mut Items<Made>,
) -> Result<(), LoadFault>
    requires { known.old ≡ known_of made.old }
    ensures known { OnOk result (known.new ≡ known_of made.new) }
    ensures made { OnOk result (made_with made.old (Some source.now) ≡ Ok made.new) }
    ensures refused { IfErr result (λ fault. fault ≢ load.NoMemory → made_with made.old (Some source.now) ≡ Err fault) }
{
    if component_named(made.as_slice(), &source.name).is_some() {
        return Ok(());
    }
    let component = compiled(alloc, source, known)?;
    known.add(source.name.copy(alloc)?, component.share()?)?;
    made.push(Made {
        name: source.name.copy(alloc)?,
        component,
    })?;
    Ok(())
}

/// The component type of a document over what is known.
fn compiled(
    alloc: Global,
    source: &Source,
    known: &Known,
) -> Result<Shared<ComponentType>, LoadFault>
    ensures made { IfOk result (λ component. compiled source.now.file source.now.document known.now ≡ Ok component) }
    ensures sized { IfOk result IsSized }
    ensures refused { IfErr result (λ fault. fault ≢ load.NoMemory → IsFaultOf source.now.file (compiled source.now.file source.now.document known.now) fault) }
{
    match compile(alloc, &source.file, source.document.get(), known) {
        Ok(component) => Ok(Shared::new(alloc, component)?),
        Err(DocFault::NoMemory) => Err(LoadFault::NoMemory),
        Err(fault) => Err(LoadFault::Doc {
            name: source.file.copy(alloc)?,
            fault,
        }),
    }
}

/// The component type that was made of that name.
fn component_named<'a>(made: &'a [Made], name: &Name) -> Option<&'a Shared<ComponentType>>
    ensures { option_copied result ≡ component_named made.now name.now }
{
    let found = made.iter().find(|made| name.is(&made.name))?;
    Some(&found.component)
}

/// The component types of the documents, in the order of the documents.
#[tactic(auto, using(crate::proofs::Uniting::one_component))]
pub(crate) fn components_of(
    alloc: Global,
    made: &[Made],
    sources: &[Source],
) -> Result<Items<Shared<ComponentType>>, AllocError>
    ensures { IfOk result (λ components. components ≡ components_of made.now sources.now) }
{
    let mut components = Items::new(alloc);
    for source in sources {
        add_component(made, source, &mut components)?;
    }
    Ok(components)
}

/// Adds the component type that was made of a document, if there is one.
fn add_component(
    made: &[Made],
    source: &Source,
    components: &mut Items<Shared<ComponentType>>,
) -> Result<(), AllocError>
    ensures { OnOk result (components.new ≡ components.old ++ option_to_list (component_named made.now source.now.name)) }
{
    if let Some(component) = component_named(made, &source.name) {
        components.push(component.share()?)?;
    }
    Ok(())
}
