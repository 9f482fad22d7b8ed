//! Laws about rewritings, each the contract of a function that does nothing.
ghost use Rattle.rewriting.specs.Laws.{RewritingsCompose, OthersStayKnown};
ghost use Rattle.rewriting.specs.Rooms.{RoomIsEnough};

use net_core::laws::simulations_compose;

/// Two rewritings of one memory, one after the other, are one rewriting.
pub fn rewritings_compose()
    ensures { RewritingsCompose }
{
    simulations_compose();
}

/// What is known of the other memories of a module stays known.
pub fn others_stay_known()
    ensures { OthersStayKnown }
{}

/// The room that a plan leaves for a port is enough for all steps.
pub fn room_is_enough()
    ensures { RoomIsEnough }
{}
