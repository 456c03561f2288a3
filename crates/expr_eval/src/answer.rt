use qml_ast::{EvalFault, Place, Value};
use sqlite_items::Items;

/// What an evaluation comes to.
#[derive(Drop)]
pub enum Eval {
    /// The expression's value.
    Is(Value),
    /// A place was read that has no value yet. Once it has one, the evaluation can begin again, and reads
    /// the same places up to this one.
    Needs(Place),
    /// The expression has no value, by its first fault.
    Faulted(EvalFault),
}

/// Where the target of an assignment stands.
#[derive(Clone, Copy)]
pub enum Aim {
    /// What is assigned goes to this place.
    At(Place),
    /// A place was read that has no value yet, and the search can begin again once it has one.
    Needs(Place),
    /// Nothing can be assigned to the target, by its first fault.
    Faulted(EvalFault),
}

/// What a call that stands as a whole statement calls.
#[derive(Drop)]
pub enum Called {
    /// A function whose value is dropped. Nothing is left to do.
    Done,
    /// `console.log`, with what is to be logged.
    Log(Items<Value>),
    /// A signal of the object of that serial, by its number there.
    Signal {
        of: u64,
        signal: u32,
        arguments: Items<Value>,
    },
    /// A method of the object of that serial, by its number there. Its body isn't run yet.
    Method {
        of: u64,
        method: u32,
        arguments: Items<Value>,
    },
    /// A place was read that has no value yet, and the call can begin again once it has one.
    Needs(Place),
    /// Nothing is called, by the first fault.
    Faulted(EvalFault),
}
