//! What each end of a gate knows, and what the slot between them has.
use std::collections::LinkedList;

/// Where one end of a gate stands. No value of it is made.
pub enum Stage<Q, A> {
    /// The asker, as long as there is no server.
    Sole,
    /// The asker, before it has taken the slot.
    Fresh,
    /// The asker may ask, or close.
    Idle,
    /// The asker has asked this, and has to collect the answer.
    Asked(Q),
    /// The asker has closed the gate.
    Ended,
    /// The closed asker has taken the server back, and these were the server's turns.
    Met(LinkedList<(Q, A)>),
    /// The server may take the next question.
    Waiting,
    /// The server has taken this question, and has to answer it.
    Working(Q),
    /// The server has found the gate closed.
    Dismissed,
    /// The server was taken back.
    Spent,
}

/// What one end of a gate knows. No value of it is made.
pub struct View<Q, A> {
    pub stage: Stage<Q, A>,
    /// The turns that are whole for this end: for the asker those whose answers it has, for the server
    /// those whose answers it gave.
    pub turns: LinkedList<(Q, A)>,
    /// How often the asker looked for an answer without waiting, and the phase was another one.
    pub misses: u64,
    /// How many answers the asker took by a call that waits.
    pub waits: u64,
}

/// What the slot has, if it has anything.
#[derive(Drop)]
pub enum Cargo<X, Y> {
    Question(X),
    Answer(Y),
}
