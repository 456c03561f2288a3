//! What is so of both ends, however their steps fall.
ghost use Rattle.baton.specs.Law.{Follows, WorksOnTheOpen, NothingAfterTheEnd, Always};

use crate::turns::Turns;

/// Between any two steps of the asker and the server, the server's turns are those of the asker, or these
/// and the turn of the open question; what the server has taken is the open question, not yet answered;
/// and once the asker has closed nothing is taken.
pub fn server_follows<P: Turns>()
    ensures turns { Always P.asked P.told P.may_ask P.may_answer (Follows P.may_answer) }
    ensures taken { Always P.asked P.told P.may_ask P.may_answer WorksOnTheOpen }
    ensures ended { Always P.asked P.told P.may_ask P.may_answer NothingAfterTheEnd }
{}
