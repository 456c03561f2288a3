//! Worlds of documents, and what is done to them.

ghost use Rattle.std.specs.Prelude.{IfOk};
ghost use Rattle.qml_types.specs.Sized.{IsSized};

use binding_engine::Writes;
use object_tree::{MakeFault, Objects};
use qml_ast::{DocFault, Name, Place, Side, Value};
use qml_parse::parse;
use qml_types::{ComponentType, Known, compile};
use shared_value::Shared;
use signals::{HandlerRef, Ran, World};
use std::alloc::{AllocError, Global};

/// A document of which nothing is made.
pub const NONE: &str = "Item { }";

/// The root's first declared property, which is the slot 37.
pub const FIRST: Place = Place {
    serial: 2,
    slot: 37,
    side: Side::Shown,
};

/// What is done to a world or asked of it, and what must come of that. Signals and handlers are the root's.
#[derive(Clone, Copy)]
pub enum Step<'a> {
    /// The signal of that number is emitted so often with these arguments, and the last emission ends so.
    Emit(u32, u32, &'a [i32], Ran),
    /// The handler of that number alone runs with these arguments, and ends so.
    Exec(u32, &'a [i32], Ran),
    /// The number is written to the place, and the handlers end so.
    Write(Place, i32, Ran),
    BeginMove,
    /// What was noted and not taken yet. It is taken.
    Notes(&'a str),
    /// How many bytes of notes were not taken yet.
    NoteBytes(usize),
    /// How many statements are left, and whether handlers are dropped.
    Left(u32, bool),
    /// The number that a place holds, and whether it is bound to something.
    Holds(Place, i32, bool),
}

/// What the text of the file of that name declares.
fn declared(alloc: Global, file: &str, text: &str, known: &Known) -> Result<ComponentType, DocFault>
    ensures { IfOk result IsSized }
{
    if text.len() > 1_000_000 || file.len() > 100 {
        return Err(DocFault::NoMemory);
    }
    let file = Name::new(alloc, file)?;
    let document = parse(alloc, text.as_bytes())?;
    compile(alloc, &file, &document, known)
}

/// That component, shared.
fn component(
    alloc: Global,
    file: &str,
    text: &str,
    known: &Known,
) -> Result<Shared<ComponentType>, DocFault>
    ensures { IfOk result IsSized }
{
    Ok(Shared::new(alloc, declared(alloc, file, text, known)?)?)
}

/// What `Main.qml` knows, where the text is that of `A.qml`.
fn known(alloc: Global, first: &str) -> Result<Known, DocFault> {
    let name = Name::new(alloc, "A")?;
    let inner = component(alloc, "A.qml", first, &Known::new(alloc))?;
    let mut known = Known::new(alloc);
    known.add(name, inner)?;
    Ok(known)
}

/// What `Main.qml` declares, where the first text is that of `A.qml`.
fn main_component(alloc: Global, first: &str, text: &str) -> Result<Shared<ComponentType>, DocFault>
    ensures { IfOk result IsSized }
{
    let known = known(alloc, first)?;
    component(alloc, "Main.qml", text, &known)
}

/// Makes the component of `Main.qml` in the content item. Its root has the serial 2.
fn make(alloc: Global, objects: &mut Objects, first: &str, text: &str) -> Result<(), DocFault> {
    let component = main_component(alloc, first, text)?;
    match objects.make(alloc, &component, 1, None) {
        Ok(_) => Ok(()),
        Err(MakeFault::Full | MakeFault::Deep | MakeFault::NoMemory) => Err(DocFault::NoMemory),
    }
}

/// Settles the objects for the first time, and runs the handlers of their completion.
fn start(alloc: Global, world: &mut World) -> Result<(), AllocError> {
    world.react(alloc, &Writes::new(alloc))?;
    let serials = world.objects.serials(alloc)?;
    for serial in serials.as_slice() {
        world.complete(alloc, *serial)?;
    }
    Ok(())
}

fn values(alloc: Global, numbers: &[i32]) -> Result<Vec<Value>, AllocError> {
    let mut values = Vec::new(alloc);
    for number in numbers {
        values.push(Value::Int(*number))?;
    }
    Ok(values)
}

/// How the last of so many emissions ends.
fn emitted(
    alloc: Global,
    world: &mut World,
    signal: u32,
    times: u32,
    arguments: &[Value],
) -> Result<Ran, AllocError> {
    let mut last = Ran::Ended;
    for _ in 0..times {
        last = world.emit(alloc, 2, signal, arguments)?;
    }
    Ok(last)
}

/// Whether a place holds that number, and is bound to something or not.
fn holds(objects: &Objects, place: Place, number: i32, bound: bool) -> bool {
    match objects.value(place) {
        Some(Value::Int(held)) => *held == number && objects.binding(place).is_some() == bound,
        _ => false,
    }
}

/// Does a step, and says whether what must come of it did.
fn goes(alloc: Global, world: &mut World, step: &Step) -> Result<bool, AllocError> {
    match step {
        Step::Emit(signal, times, arguments, ran) => {
            let arguments = values(alloc, arguments)?;
            Ok(emitted(alloc, world, *signal, *times, arguments.as_slice())? == *ran)
        }
        Step::Exec(index, arguments, ran) => {
            let handler = HandlerRef {
                serial: 2,
                index: *index,
            };
            let arguments = values(alloc, arguments)?;
            Ok(world.exec(alloc, handler, arguments.as_slice())? == *ran)
        }
        Step::Write(place, number, ran) => {
            Ok(world.write(alloc, *place, Value::Int(*number))? == *ran)
        }
        Step::BeginMove => {
            world.begin_move();
            Ok(true)
        }
        Step::Notes(notes) => Ok(world.notes.take().as_slice() == notes.as_bytes()),
        Step::NoteBytes(length) => Ok(world.notes.as_slice().len() == *length),
        Step::Left(left, dropped) => Ok(world.left == *left && world.dropped == *dropped),
        Step::Holds(place, number, bound) => Ok(holds(&world.objects, *place, *number, *bound)),
    }
}

/// Whether all goes as it must in a world that has only the content item.
fn goes_all(
    alloc: Global,
    world: &mut World,
    first: &str,
    text: &str,
    steps: &[Step],
) -> Result<bool, DocFault> {
    make(alloc, &mut world.objects, first, text)?;
    start(alloc, world)?;
    for step in steps {
        if !goes(alloc, world, step)? {
            return Ok(false);
        }
    }
    Ok(true)
}

/// Whether all steps go as they must in the world of `Main.qml`, after the handlers of completion have run. The first
/// text is that of `A.qml`.
pub fn passes(alloc: Global, first: &str, text: &str, steps: &[Step]) -> Result<bool, DocFault> {
    let mut world = World::new(alloc, Objects::new(alloc)?);
    goes_all(alloc, &mut world, first, text, steps)
}

/// The same where `Main.qml` is the text with what stands before and behind it.
pub fn passes_within(
    alloc: Global,
    around: (&str, &str),
    text: &str,
    steps: &[Step],
) -> Result<bool, DocFault> {
    let text = format!(in alloc; "{}{text}{}", around.0, around.1)?;
    passes(alloc, NONE, text.as_str(), steps)
}
