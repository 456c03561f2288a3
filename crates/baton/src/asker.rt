//! The end of a gate that asks, and how a gate is made and left.
ghost use Rattle.std.specs.Prelude.{◌≡◌, ℕ, ◌+◌, ◌++◌, ◌∷◌, [], IfOk, IfSome, IfNone};
ghost use Rattle.std.specs.Arc.{arc_value};
ghost use Rattle.baton.specs.declared.view.Stage.TheVariants.{Ended};
ghost use Rattle.baton.specs.Sides.{Side, side_of, unused, Sits, IsAsked, Gains};

use crate::phase::Phase;
use crate::server::Server;
use crate::steps::{Ask, Close, Learn, Part, Seat, Start, Table, TakeBack, TryCollect};
use crate::turns::Turns;
use crate::view::{Cargo, Stage};
use crate::waiting::{answer_in_hand, await_answer};
use std::alloc::{AllocError, Global};
use std::marker::Model;
use std::sync::{Arc, Wait};

/// The end of a gate that asks. Contracts see its gate, where it stands, its turns, and two counts.
/// It can't be dropped: `close` it, or the server would wait for ever.
pub struct Asker<P: Turns> {
    table: Arc<Table<P>, Global>,
    seat: Seat<P>,
}

impl<P: Turns> Model for Asker<P> {
    ghost Value = { Side P.Asked P.Told };

    ghost view = { λ a. side_of a.seat.table_id a.seat.me.0 };

    ghost invariant = { λ a. Sits (arc_value a.table).shared.table_id a.seat.table_id a.seat.me × (a.seat.id ≡ 0) };
}

/// What is left of an asker that has closed its gate. It can't be dropped: it has to meet the server.
pub struct Closer<P: Turns> {
    table: Arc<Table<P>, Global>,
    seat: Seat<P>,
}

impl<P: Turns> Model for Closer<P> {
    ghost Value = { Side P.Asked P.Told };

    ghost view = { λ a. side_of a.seat.table_id a.seat.me.0 };

    ghost invariant = { λ a. Sits (arc_value a.table).shared.table_id a.seat.table_id a.seat.me × (a.seat.id ≡ 0) × (a.seat.me.0.stage ≡ Ended) };
}

/// Makes a gate with no turns. All memory that the gate takes is taken here, before its first step;
/// `AllocError` where there is none.
pub fn pair<P: Turns>(alloc: Global) -> Result<(Asker<P>, Server<P>), AllocError>
    ensures { IfOk result (λ ends. (ends.0 ≡ unused ends.0.gate Stage.Idle) × (ends.1 ≡ unused ends.0.gate Stage.Waiting)) }
{
    let (table, mut seat) = Table::<P>::vacant(alloc, &[Phase::Fresh as u64], 1, &())?;
    let table = Arc::new(alloc, table)?;
    let shared_table = Arc::try_clone(&table)?;
    let shared = &table.shared;
    let server = shared.split_seat::<Part>(&mut seat);
    shared.store::<Start<P>>(&mut seat, 0, Phase::Idle as u64);
    Ok((Asker { table, seat }, Server::new(shared_table, server)))
}

impl<P: Turns> Asker<P> {
    /// Puts a question, and wakes the server if it waits.
    pub fn ask(&mut self, question: P::Question)
        requires idle { self.old.stage ≡ Stage.Idle }
        requires lawful { P.may_ask self.old.turns (P.asked question) }
        ensures { self.new ≡ record self.old { stage = Stage.Asked (P.asked question) } }
    {
        let shared = &self.table.shared;
        drop(shared.exchange(&mut self.seat, 0, Some(Cargo::Question(question))));
        shared.store::<Ask<P>>(&mut self.seat, 0, Phase::Asked as u64);
        shared.wake_one(0);
    }

    /// Takes the answer, if it is there. `None` only where the phase that was loaded wasn't `Answered`, which
    /// is counted as a miss.
    pub fn try_collect(&mut self) -> Option<P::Answer>
        requires { IsAsked self.old.stage }
        ensures some { IfSome result (λ a. Gains P.may_answer self.old.waits self.old (P.told a) self.new) }
        ensures none { IfNone result (self.new ≡ record self.old { misses = self.old.misses + 1 }) }
    {
        let shared = &self.table.shared;
        let found = shared.compare_exchange::<TryCollect<P>>(
            &mut self.seat,
            0,
            Phase::Answered as u64,
            Phase::Idle as u64,
        );
        if found == Phase::Answered as u64 {
            Some(answer_in_hand(shared, &mut self.seat))
        } else {
            None
        }
    }

    /// Waits for the answer, and takes it. Returns only if the server answers.
    pub fn collect<R: Wait>(&mut self, rt: &R) -> P::Answer
        requires { IsAsked self.old.stage }
        ensures { Gains P.may_answer (self.old.waits + 1) self.old (P.told result) self.new }
    {
        await_answer(rt, &self.table.shared, &mut self.seat)
    }

    /// Closes the gate, so that no question comes any more, and wakes the server if it waits.
    pub fn close(self) -> Closer<P>
        requires { self.stage ≡ Stage.Idle }
        ensures { result ≡ record self { stage = Stage.Ended } }
    {
        let Asker { table, mut seat } = self;
        table
            .shared
            .store::<Close<P>>(&mut seat, 0, Phase::Closed as u64);
        table.shared.wake_one(0);
        Closer { table, seat }
    }
}

impl<P: Turns> Closer<P> {
    /// Takes the server of this gate back, whose turns are then known to be the asker's.
    pub fn meet(self, server: Server<P>)
        requires gate { server.gate ≡ self.gate }
        requires dismissed { server.stage ≡ Stage.Dismissed }
        ensures { server.turns ≡ self.turns }
    {
        let Closer { table, mut seat } = self;
        let shared = &table.shared;
        shared.join_seat::<TakeBack>(&mut seat, server.into_seat());
        shared.load::<Learn<P>>(&mut seat, 0);
    }
}
