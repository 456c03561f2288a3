ghost use Rattle.std.specs.Prelude.{◌≡◌, IfOk, OnOk};
ghost use Rattle.qml_types.specs.Sized.{IsSized};
ghost use Rattle.object_tree.specs.Limits.{make_fault};
ghost use Rattle.item_paint.specs.declared.showing.TheConstants.{CONTENT_ITEM};
ghost use Rattle.stage_run.specs.Started.{content_place, with_content, rooted, refusal_of, with_limit, completed, all_completed, started};

use binding_engine::Writes;
use item_paint::CONTENT_ITEM;
use object_tree::{MakeFault, Objects};
use qml_ast::{At, Place, Side, Span, Value};
use qml_types::ComponentType;
use script_text::{LimitKind, Note};
use shared_value::Shared;
use signals::World;
use std::alloc::{AllocError, Global};
use type_table::item_slots::{HEIGHT, WIDTH};

// A slot's side of the content item.
fn content_place(slot: u32, side: Side) -> Place
    ensures { result ≡ content_place slot side }
{
    Place {
        serial: CONTENT_ITEM,
        slot,
        side,
    }
}

// Sets a slot of the content item to a number, which it shows.
fn set_content(objects: &mut Objects, slot: u32, pixels: i32)
    ensures { objects.new ≡ with_content slot pixels objects.old }
{
    objects.set_own(content_place(slot, Side::Set), Value::Int(pixels));
    objects.keep(content_place(slot, Side::Shown), Value::Int(pixels));
}

// Makes the objects of the main document. Where there would be too many, or they would stand too deep, nothing is made, and
// that limit is answered.
fn make_root(
    alloc: Global,
    main: &Shared<ComponentType>,
    objects: &mut Objects,
) -> Result<Option<LimitKind>, AllocError>
    requires { IsSized main.now }
    ensures made { OnOk result (objects.new ≡ rooted main.now objects.old) }
    ensures limit { IfOk result (λ limit. limit ≡ refusal_of (make_fault main.now CONTENT_ITEM objects.old)) }
{
    match objects.make(alloc, main, CONTENT_ITEM, None) {
        Ok(_) => Ok(None),
        Err(MakeFault::Full) => Ok(Some(LimitKind::Objects)),
        Err(MakeFault::Deep) => Ok(Some(LimitKind::Depth)),
        Err(MakeFault::NoMemory) => Err(AllocError),
    }
}

// Notes the limit that refused the main document's objects, at the document's beginning.
fn note_refusal(
    main: &Shared<ComponentType>,
    limit: Option<LimitKind>,
    world: &mut World,
) -> Result<(), AllocError>
    ensures { OnOk result (world.new ≡ with_limit limit main.now world.old) }
{
    let Some(limit) = limit else {
        return Ok(());
    };
    let at = At {
        file: &main.get().file,
        span: Span { line: 1, col: 1 },
    };
    world.notes.line(&Note::Limit(at, limit))
}

// Runs the handlers of one object's completion.
fn complete(alloc: Global, serial: u64, world: &mut World) -> Result<(), AllocError>
    ensures { OnOk result (world.new ≡ completed world.old serial) }
{
    world.complete(alloc, serial)?;
    Ok(())
}

// Runs the handlers of all objects' completion, in the order in which the objects were made.
fn complete_all(alloc: Global, world: &mut World) -> Result<(), AllocError>
    ensures { OnOk result (world.new ≡ all_completed world.old) }
{
    let serials = world.objects.serials(alloc)?;
    for serial in serials.as_slice() {
        complete(alloc, *serial, world)?;
    }
    Ok(())
}

/// The world with which a run starts in a window of that size, in pixels: the objects of the main document in
/// the content item, with all that they are bound to, after the handlers of their completion have run (Qt 5 QML
/// Reference, Component.completed). Where there would be more than 99,999 of them, or they would stand on more
/// than 256 levels, that is noted, and the content item is alone.
///
/// # Errors
///
/// Memory ran out.
pub(crate) fn start(
    alloc: Global,
    main: &Shared<ComponentType>,
    width: i32,
    height: i32,
) -> Result<World, AllocError>
    requires { IsSized main.now }
    ensures { IfOk result (λ world. world ≡ started main.now width height) }
{
    let mut objects = Objects::new(alloc)?;
    set_content(&mut objects, WIDTH, width);
    set_content(&mut objects, HEIGHT, height);
    let limit = make_root(alloc, main, &mut objects)?;
    let mut world = World::new(alloc, objects);
    note_refusal(main, limit, &mut world)?;
    world.react(alloc, &Writes::new(alloc))?;
    complete_all(alloc, &mut world)?;
    Ok(world)
}
