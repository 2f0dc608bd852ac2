//! A law of actors, on the contract of a function that does nothing.
ghost use Rattle.cd_actor.specs.Laws.{OwedInFamily};

use crate::actor::Actor;

/// What a whole cell owes goes to a place of its family, and is lawful for each cell of the family.
pub fn owed_in_family<A: Actor>()
    ensures { OwedInFamily A.meaning }
{}
