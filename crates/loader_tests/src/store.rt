//! What loads of files in memory give, as a line of text.

use outside::MemFiles;
use qml_types::ComponentType;
use shared_value::Shared;
use std::alloc::{AllocError, Global};
use type_loader::{Cache, load};

/// Adds a file for each line: its name, a colon and a blank, and its text.
fn add_all(files: &mut MemFiles, lines: &str) -> Result<(), AllocError> {
    for line in lines.lines() {
        if let Some((name, text)) = line.split_once(": ") {
            files.add(name, text.as_bytes())?;
        }
    }
    Ok(())
}

fn tell_files(told: &mut String, components: &[Shared<ComponentType>]) -> Result<(), AllocError> {
    for component in components {
        write!(told, "{} ", component.get().file)?;
    }
    Ok(())
}

/// Tells the files of the component types of the document of that name, or the fault.
fn tell(
    alloc: Global,
    files: &mut MemFiles,
    cache: &mut Cache,
    name: &str,
    told: &mut String,
) -> Result<(), AllocError> {
    if name.len() > 65_536 {
        return told.push_str("no name");
    }
    match load(alloc, files, name, cache) {
        Ok(unit) => tell_files(told, unit.components.as_slice()),
        Err(fault) => write!(told, "{fault}"),
    }
}

/// Tells what one load gives, with a comma behind what was told before.
fn tell_next(
    alloc: Global,
    files: &mut MemFiles,
    cache: &mut Cache,
    name: &str,
    told: &mut String,
) -> Result<(), AllocError> {
    if !told.is_empty() {
        told.push_str(", ")?;
    }
    tell(alloc, files, cache, name, told)
}

/// What the loads give.
fn told(
    alloc: Global,
    files: &mut MemFiles,
    cache: &mut Cache,
    name: &str,
    steps: &[(&str, u64)],
) -> Result<String, AllocError> {
    let mut told = String::new(alloc);
    for (lines, failing) in steps {
        add_all(files, lines)?;
        files.fail(*failing)?;
        tell_next(alloc, files, cache, name, &mut told)?;
    }
    Ok(told)
}

/// What loads of the document of that name give, with commas between them. Before each load files are added,
/// one for each line, and the fetch of that number fails; none has the number 0.
pub(crate) fn loaded(
    alloc: Global,
    name: &str,
    steps: &[(&str, u64)],
) -> Result<String, AllocError> {
    let mut files = MemFiles::new(alloc);
    let mut cache = Cache::new(alloc);
    told(alloc, &mut files, &mut cache, name, steps)
}

/// Whether this is what they give.
pub(crate) fn gives(
    alloc: Global,
    name: &str,
    steps: &[(&str, u64)],
    wanted: &str,
) -> Result<bool, AllocError> {
    let found = loaded(alloc, name, steps)?;
    Ok(found.as_str() == wanted)
}
