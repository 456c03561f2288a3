ghost use Rattle.std.specs.Prelude.{◌≡◌, ◌≤◌, ◌<◌, length, IfOk, IfErr, IfSome, None, Some};
ghost use Rattle.std.specs.FinMap.{get};
ghost use Rattle.std.specs.List.{All};
ghost use Rattle.qml_types.specs.Sized.{IsSized};
ghost use Rattle.stage_run.specs.Causes.{HasScript, RefusesScript, RefusesDocument};
ghost use Rattle.stage_run.specs.Documents.{HasRunUnit};
ghost use Rattle.stage_run.specs.Flaws.{IsBadScriptAt, TellsUnrun, document_status, load_status};
ghost use Rattle.stage_run.specs.Script.{IsScript};
ghost use Rattle.unit_check.specs.Unrun.{first_unrun};

use crate::script::read_script;
use crate::status::Status;
use outside::{Fetch, Files};
use qml_ast::{DocFault, LoadFault, Name};
use qml_types::ComponentType;
use shared_value::Shared;
use std::alloc::Global;
use type_loader::{Cache, Unit, load};
use unit_check::{Unrun, first_unrun};

/// The most bytes that a script may have.
pub const SCRIPT_LIMIT: usize = 4_194_304;

/// The number of commands of the script of this name, or why there is none: `BadScript` where the file
/// is missing, too long or has a bad line, `ReadFault` where it could not be read, or `NoMemory`.
pub fn fetch_script<F: Files>(alloc: Global, files: &mut F, name: &str) -> Result<u32, Status>
    ensures held { F.held files.new ≡ F.held files.old }
    ensures later { F.faults files.old ≤ F.faults files.new }
    ensures few { IfOk result (λ count. count ≤ 100000) }
    ensures read { IfOk result (λ count. IfSome (F.held files.old) (λ told. HasScript (get told name.now) count)) }
    ensures refused { IfErr result (RefusesScript (F.held files.old) name.now (F.faults files.old) (F.faults files.new)) }
{
    let mut bytes = Vec::new(alloc);
    match files.fetch(name, SCRIPT_LIMIT, &mut bytes) {
        Fetch::Found => commands_of(bytes.as_slice()),
        Fetch::Missing => Err(Status::BadScript { line: 0 }),
        Fetch::TooLong => Err(Status::BadScript { line: 0 }),
        Fetch::Failed => Err(Status::ReadFault),
        Fetch::NoMemory => Err(Status::NoMemory),
    }
}

/// The number of commands of a script's text, or its first bad line.
fn commands_of(bytes: &[u8]) -> Result<u32, Status>
    ensures read { IfOk result (IsScript bytes.now) }
    ensures refused { IfErr result (IsBadScriptAt bytes.now) }
{
    match read_script(bytes) {
        Ok(count) => Ok(count),
        Err(line) => Err(Status::BadScript { line }),
    }
}

/// The unit of the document of this name, of which all is run, or why there is none: `BadDocument` with the
/// load's fault or with the first place of the documents that isn't run yet, `ReadFault` where a file could
/// not be read, or `NoMemory`.
pub fn load_document<F: Files>(alloc: Global, files: &mut F, name: &str) -> Result<Unit, Status>
    requires { length name.now ≤ 65536 }
    ensures held { F.held files.new ≡ F.held files.old }
    ensures later { F.faults files.old ≤ F.faults files.new }
    ensures sized { IfOk result (λ unit. All IsSized unit.components) }
    ensures read { IfOk result (λ unit. IfSome (F.held files.old) (λ told. HasRunUnit told name.now unit)) }
    ensures refused { IfErr result (RefusesDocument (F.held files.old) name.now (F.faults files.old) (F.faults files.new)) }
{
    let mut cache = Cache::new(alloc);
    match load(alloc, files, name, &mut cache) {
        Ok(unit) => all_run(alloc, unit),
        Err(fault) => Err(load_status(fault)),
    }
}

/// What a load's fault means for the run.
fn load_status(fault: LoadFault) -> Status
    ensures { result ≡ load_status fault }
{
    match fault {
        LoadFault::Read => Status::ReadFault,
        LoadFault::NoMemory => Status::NoMemory,
        LoadFault::Doc { name, fault } => document_status(name, fault),
        fault => Status::BadDocument { fault },
    }
}

/// What the fault of the document in that file means for the run.
fn document_status(name: Name, fault: DocFault) -> Status
    ensures { result ≡ document_status name fault }
{
    match fault {
        DocFault::NoMemory => Status::NoMemory,
        fault => Status::BadDocument {
            fault: LoadFault::Doc { name, fault },
        },
    }
}

/// The unit itself where all of it is run, or its first place that isn't.
fn all_run(alloc: Global, unit: Unit) -> Result<Unit, Status>
    ensures run { IfOk result (λ same. (same ≡ unit) × (first_unrun unit.components ≡ None)) }
    ensures refused { IfErr result (TellsUnrun unit.components) }
{
    match first_unrun(unit.components.as_slice()) {
        None => Ok(unit),
        Some(place) => Err(unrun_at(alloc, unit.components.as_slice(), place)),
    }
}

/// That the place isn't run, or that there is no memory to say so.
fn unrun_at(alloc: Global, components: &[Shared<ComponentType>], place: Unrun) -> Status
    requires first { first_unrun components.now ≡ Some place }
    requires within { place.document < length components.now }
    ensures { TellsUnrun components.now result }
{
    let component = components[place.document].get();
    let Ok(name) = component.file.copy(alloc) else {
        return Status::NoMemory;
    };
    let fault = DocFault::Unsupported { at: place.at };
    Status::BadDocument {
        fault: LoadFault::Doc { name, fault },
    }
}
