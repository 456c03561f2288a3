ghost use Rattle.std.specs.Prelude.{◌≡◌, ◌≤◌, length, IfOk, IfErr, IfSome};
ghost use Rattle.std.specs.List.{All};
ghost use Rattle.qml_types.specs.Sized.{IsSized};
ghost use Rattle.stage_run.specs.Causes.{RefusesDocument};
ghost use Rattle.stage_run.specs.Documents.{HasRunUnit};
ghost use Rattle.stage_run.specs.Shown.{picture_in, picture_of, notes_of};
ghost use Rattle.type_loader.specs.declared.unit.Unit.{Unit as UnitOf};

use crate::sources::load_document;
use crate::start::start;
use crate::status::Status;
use item_paint::picture;
use outside::Files;
use rect_raster::Canvas;
use signals::World;
use std::alloc::{AllocError, Global};
use type_loader::Unit;

/// The window's width in pixels.
pub const WIDTH: u32 = 640;

/// The window's height in pixels.
pub const HEIGHT: u32 = 480;

/// What a run's start shows and tells.
#[derive(Drop)]
pub struct Opening {
    /// The window.
    pub canvas: Canvas,
    /// What is noted, as lines.
    pub notes: Vec<u8>,
}

/// What a world shows and has noted.
fn opening_in(alloc: Global, world: World) -> Result<Opening, AllocError>
    ensures shown { IfOk result (λ opening. opening.canvas ≡ picture_in world.objects) }
    ensures noted { IfOk result (λ opening. opening.notes.items ≡ world.notes) }
{
    let canvas = picture(alloc, &world.objects, WIDTH, HEIGHT)?;
    let mut notes = world.notes;
    Ok(Opening {
        canvas,
        notes: notes.take(),
    })
}

/// What the start of a unit's main document shows and tells.
fn opening_of(alloc: Global, unit: &Unit) -> Result<Opening, AllocError>
    requires { All IsSized unit.now.components }
    ensures shown { IfOk result (λ opening. opening.canvas ≡ picture_of unit.now) }
    ensures noted { IfOk result (λ opening. opening.notes.items ≡ notes_of unit.now) }
{
    match unit.components.as_slice() {
        [main, ..] => {
            let world = start(alloc, main, WIDTH as i32, HEIGHT as i32)?;
            opening_in(alloc, world)
        }
        [] => unreachable!(),
    }
}

/// What the start of the document of this name shows and tells, or why there is none, which is why its unit
/// isn't loaded.
pub fn main_opening<F: Files>(alloc: Global, files: &mut F, name: &str) -> Result<Opening, Status>
    requires { length name.now ≤ 65536 }
    ensures held { F.held files.new ≡ F.held files.old }
    ensures later { F.faults files.old ≤ F.faults files.new }
    ensures shown { IfOk result (λ opening. (unit : UnitOf) × (opening.canvas ≡ picture_of unit) × (opening.notes.items ≡ notes_of unit)
        × IfSome (F.held files.old) (λ told. HasRunUnit told name.now unit)) }
    ensures refused { IfErr result (RefusesDocument (F.held files.old) name.now (F.faults files.old) (F.faults files.new)) }
{
    let unit = load_document(alloc, files, name)?;
    let opening = opening_of(alloc, &unit)?;
    Ok(opening)
}
