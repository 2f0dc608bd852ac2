//! A law of runs, on the contract of a function that does nothing.
ghost use Rattle.cd_core.specs.Runs.{EveryOrder};

use cd_actor::Actor;

/// In whichever order the messages are delivered: where nothing pends, each start message is had, and each message that is owed.
pub fn every_order<A: Actor>()
    ensures { EveryOrder A.meaning }
{}
