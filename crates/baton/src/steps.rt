//! The rule of a gate, and the kinds of step that an end makes under it.
ghost use Rattle.std.specs.Prelude.{true, false};
ghost use Rattle.baton.specs.Rule.{Kept};
ghost use Rattle.baton.specs.Steps.{alone, parted, newcomer, nobody, taken_back, Starts, Asks, Takes, Replies, Collects, Closes, Learns};

use crate::turns::Turns;
use crate::view::{Cargo, View};
use atomic_table::{Join, Play, Split, TableRule};
use std::alloc::Global;
use std::marker::PhantomData;

/// What the slot of a gate has.
pub type Slot<P> = Option<Cargo<<P as Turns>::Question, <P as Turns>::Answer>>;

/// What an end of a gate knows.
pub type Known<P> = View<<P as Turns>::Asked, <P as Turns>::Told>;

pub type Shared<P> = atomic_table::Shared<Slot<P>, Known<P>, (), Law<P>>;

pub type Table<P> = atomic_table::Table<Slot<P>, Known<P>, (), Law<P>, Global>;

pub type Seat<P> = atomic_table::Seat<Slot<P>, Known<P>>;

/// The rule: the gate is at one of its moments.
pub struct Law<P> {
    of: PhantomData<P>,
}

impl<P: Turns> TableRule<Slot<P>, Known<P>, ()> for Law<P> {
    ghost holds = { λ _. Kept P.asked P.told P.may_ask P.may_answer };

    ghost first = { λ _. alone };
}

/// The asker makes the server.
pub struct Part;

impl<Q, A> Split<View<Q, A>> for Part {
    ghost left = { parted };

    ghost right = { newcomer };
}

/// The asker takes the empty slot.
pub struct Start<P> {
    of: PhantomData<P>,
}

impl<P: Turns> Play<Slot<P>, Known<P>> for Start<P> {
    ghost then = { λ _. Starts };
}

/// The asker gives the slot back, with a question in it.
pub struct Ask<P> {
    of: PhantomData<P>,
}

impl<P: Turns> Play<Slot<P>, Known<P>> for Ask<P> {
    ghost then = { λ _. Asks P.asked };
}

/// The server takes the slot with a question, or finds the gate closed, or neither.
pub struct Take<P> {
    of: PhantomData<P>,
}

impl<P: Turns> Play<Slot<P>, Known<P>> for Take<P> {
    ghost then = { λ _. Takes P.asked P.may_ask };
}

/// The server gives the slot back, with an answer in it.
pub struct Reply<P> {
    of: PhantomData<P>,
}

impl<P: Turns> Play<Slot<P>, Known<P>> for Reply<P> {
    ghost then = { λ _. Replies P.told };
}

/// The asker takes the slot with the answer, or counts that there was none yet.
pub struct TryCollect<P> {
    of: PhantomData<P>,
}

impl<P: Turns> Play<Slot<P>, Known<P>> for TryCollect<P> {
    ghost then = { λ _. Collects P.told P.may_answer false };
}

/// The asker takes the slot with the answer, and counts that it waited, or finds that there is none yet.
pub struct Collect<P> {
    of: PhantomData<P>,
}

impl<P: Turns> Play<Slot<P>, Known<P>> for Collect<P> {
    ghost then = { λ _. Collects P.told P.may_answer true };
}

/// The asker gives the empty slot back, and asks no more.
pub struct Close<P> {
    of: PhantomData<P>,
}

impl<P: Turns> Play<Slot<P>, Known<P>> for Close<P> {
    ghost then = { λ _. Closes };
}

/// The closed asker takes the server back.
pub struct TakeBack;

impl<Q, A> Join<View<Q, A>> for TakeBack {
    ghost both = { taken_back };

    ghost spent = { nobody };
}

/// The closed asker learns that the server's turns are its own.
pub struct Learn<P> {
    of: PhantomData<P>,
}

impl<P: Turns> Play<Slot<P>, Known<P>> for Learn<P> {
    ghost then = { λ _. Learns };
}
