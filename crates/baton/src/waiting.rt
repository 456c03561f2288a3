//! The calls that wait, over the table and the seat of an end.
ghost use Rattle.std.specs.Prelude.{◌≡◌, ◌+◌, ◌++◌, ◌∷◌, [], None, IfSome, IfNone, IsNone};
ghost use Rattle.baton.specs.Sides.{IsAsked, MayTake, side_of, Sits, Gains};

use crate::phase::Phase;
use crate::steps::{Collect, Seat, Shared, Take};
use crate::turns::Turns;
use crate::view::{Cargo, Stage};
use std::sync::Wait;

/// Takes the answer out of the slot, which the asker has just got.
pub fn answer_in_hand<P: Turns>(shared: &Shared<P>, seat: &mut Seat<P>) -> P::Answer
    requires table { seat.old.table_id ≡ shared.now.table_id }
    requires holds { (y : P.Answer) × (seat.old.me.1 ≡ (0, Some (Cargo.Answer y)) ∷ []) }
    ensures seat { (seat.new.table_id ≡ seat.old.table_id) × (seat.new.id ≡ seat.old.id) }
    ensures taken { (seat.old.me.1 ≡ (0, Some (Cargo.Answer result)) ∷ []) × (seat.new.me ≡ (seat.old.me.0, (0, None) ∷ [])) }
{
    match shared.exchange(seat, 0, None) {
        Some(Cargo::Answer(answer)) => answer,
        _ => unreachable!(),
    }
}

/// Takes the question out of the slot, which the server has just got.
pub fn question_in_hand<P: Turns>(shared: &Shared<P>, seat: &mut Seat<P>) -> P::Question
    requires table { seat.old.table_id ≡ shared.now.table_id }
    requires holds { (x : P.Question) × (seat.old.me.1 ≡ (0, Some (Cargo.Question x)) ∷ []) }
    ensures seat { (seat.new.table_id ≡ seat.old.table_id) × (seat.new.id ≡ seat.old.id) }
    ensures taken { (seat.old.me.1 ≡ (0, Some (Cargo.Question result)) ∷ []) × (seat.new.me ≡ (seat.old.me.0, (0, None) ∷ [])) }
{
    match shared.exchange(seat, 0, None) {
        Some(Cargo::Question(question)) => question,
        _ => unreachable!(),
    }
}

/// Waits until the gate has the answer, and takes it.
pub fn await_answer<P: Turns, R: Wait>(rt: &R, shared: &Shared<P>, seat: &mut Seat<P>) -> P::Answer
    requires sits { Sits shared.now.table_id seat.old.table_id seat.old.me }
    requires asker { seat.old.id ≡ 0 }
    requires asked { IsAsked seat.old.me.0.stage }
    ensures sits { Sits shared.now.table_id seat.new.table_id seat.new.me × (seat.new.id ≡ 0) }
    ensures gains { let old = side_of seat.old.table_id seat.old.me.0 in Gains P.may_answer (old.waits + 1) old (P.told result) (side_of seat.new.table_id seat.new.me.0) }
{
    for _ in rt.forever() {
        let found = shared.compare_exchange::<Collect<P>>(
            seat,
            0,
            Phase::Answered as u64,
            Phase::Idle as u64,
        );
        if found == Phase::Answered as u64 {
            return answer_in_hand(shared, seat);
        }
        shared.park(rt, 0, found as u32);
    }
    unreachable!()
}

/// Waits until the gate has a question, and takes it; or until the gate is closed.
pub fn await_question<P: Turns, R: Wait>(
    rt: &R,
    shared: &Shared<P>,
    seat: &mut Seat<P>,
) -> Option<P::Question>
    requires sits { Sits shared.now.table_id seat.old.table_id seat.old.me }
    requires waits { MayTake seat.old.me.0.stage }
    ensures sits { Sits shared.now.table_id seat.new.table_id seat.new.me }
    ensures some { let old = side_of seat.old.table_id seat.old.me.0 in IfSome result (λ x. P.may_ask old.turns (P.asked x) × (side_of seat.new.table_id seat.new.me.0 ≡ record old { stage = Stage.Working (P.asked x) })) }
    ensures none { let old = side_of seat.old.table_id seat.old.me.0 in IfNone result (side_of seat.new.table_id seat.new.me.0 ≡ record old { stage = Stage.Dismissed }) }
    ensures again { seat.old.me.0.stage ≡ Stage.Dismissed → IsNone result }
{
    for _ in rt.forever() {
        let found = shared.compare_exchange::<Take<P>>(
            seat,
            0,
            Phase::Asked as u64,
            Phase::Working as u64,
        );
        if found == Phase::Asked as u64 {
            return Some(question_in_hand(shared, seat));
        }
        if found == Phase::Closed as u64 {
            return None;
        }
        shared.park(rt, 0, found as u32);
    }
    unreachable!()
}
