use binding_engine::Engine;
use object_tree::Objects;
use script_text::Notes;
use sqlite_items::Items;

/// What happened in a settle, or to a timer, that the rest of the machine acts upon.
#[derive(Clone, Copy, Debug, PartialEq, Eq)]
pub enum Event {
    /// The `running` of the timer of that serial changed to this.
    Running(u64, bool),
    /// The `interval` of the timer of that serial changed.
    Interval(u64),
    /// The timer of that serial, which runs, was told to begin anew.
    Restart(u64),
    /// The mouse area of that serial became invisible or disabled.
    Off(u64),
}

/// A handler of an object.
#[derive(Clone, Copy, Debug, PartialEq, Eq)]
pub struct HandlerRef {
    /// The object's serial.
    pub serial: u64,
    /// The handler's number: those of the innermost document first, then in the order of the source.
    pub index: u32,
}

/// The objects of a running program, and what comes of what runs in them.
#[derive(Drop)]
pub struct World {
    pub objects: Objects,
    pub engine: Engine,
    /// What was noted and not taken yet.
    pub notes: Notes,
    /// What happened and was not taken yet, in order.
    pub events: Items<Event>,
    /// How many more statements may run in this move.
    pub left: u32,
    /// Whether a limit was met in this move. No handler runs then.
    pub dropped: bool,
}
