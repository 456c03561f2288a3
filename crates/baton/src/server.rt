//! The end of a gate that answers.
ghost use Rattle.std.specs.Prelude.{◌≡◌, [], IfSome, IfNone, IsNone};
ghost use Rattle.std.specs.Arc.{arc_value};
ghost use Rattle.baton.specs.Sides.{Side, side_of, Sits, MayTake, MayAnswer, Serves};

use crate::phase::Phase;
use crate::steps::{Reply, Seat, Table};
use crate::turns::Turns;
use crate::view::{Cargo, Stage};
use crate::waiting::await_question;
use std::alloc::Global;
use std::marker::Model;
use std::sync::{Arc, Wait};

/// The end of a gate that answers. Contracts see its gate, where it stands, and its turns.
#[derive(Drop)]
pub struct Server<P: Turns> {
    table: Arc<Table<P>, Global>,
    seat: Seat<P>,
}

impl<P: Turns> Model for Server<P> {
    ghost Value = { Side P.Asked P.Told };

    ghost view = { λ a. side_of a.seat.table_id a.seat.me.0 };

    ghost invariant = { λ a. Sits (arc_value a.table).shared.table_id a.seat.table_id a.seat.me };
}

impl<P: Turns> Server<P> {
    pub(crate) fn new(table: Arc<Table<P>, Global>, seat: Seat<P>) -> Server<P>
        requires { Sits (arc_value table).shared.table_id seat.table_id seat.me }
        ensures { result ≡ side_of seat.table_id seat.me.0 }
    {
        Server { table, seat }
    }

    pub(crate) fn into_seat(self) -> Seat<P>
        ensures known { self ≡ side_of result.table_id result.me.0 }
        ensures hand { self.stage ≡ Stage.Dismissed → result.me.1 ≡ [] }
    {
        let Server { table: _, seat } = self;
        seat
    }

    /// Waits for the next question, and takes it. `None` only where the phase that was loaded was `Closed`;
    /// a further call gives `None` again.
    pub fn next<R: Wait>(&mut self, rt: &R) -> Option<P::Question>
        requires { MayTake self.old.stage }
        ensures some { IfSome result (λ x. P.may_ask self.old.turns (P.asked x) × (self.new ≡ record self.old { stage = Stage.Working (P.asked x) })) }
        ensures none { IfNone result (self.new ≡ record self.old { stage = Stage.Dismissed }) }
        ensures again { self.old.stage ≡ Stage.Dismissed → IsNone result }
    {
        await_question(rt, &self.table.shared, &mut self.seat)
    }

    /// Answers the question that was taken last, and wakes the asker if it waits.
    pub fn answer(&mut self, answer: P::Answer)
        requires { MayAnswer P.may_answer self.old (P.told answer) }
        ensures { Serves self.old (P.told answer) self.new }
    {
        let shared = &self.table.shared;
        drop(shared.exchange(&mut self.seat, 0, Some(Cargo::Answer(answer))));
        shared.store::<Reply<P>>(&mut self.seat, 0, Phase::Answered as u64);
        shared.wake_one(0);
    }
}
