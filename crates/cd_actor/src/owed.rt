//! What cells owe each other and have not.
ghost use Rattle.std.specs.Prelude.{◌≡◌, ◌++◌, OnOk};
ghost use Rattle.cd_base.specs.Lists.{HasNoRepeats};
ghost use Rattle.cd_actor.specs.Cells.{AreCells, AreAllLawful, IsOwedCovered};
ghost use Rattle.cd_actor.specs.Owed.{IsNotHadOf, IsOwedInTurn};
ghost use Rattle.cd_actor.specs.Sends.{sent};

use crate::actor::Actor;
use crate::outbox::Outbox;
use cd_base::Memory;
use std::alloc::Global;

/// Appends what each cell owes and its addressee has not, the first cell's first. Linear in what is owed.
pub fn put_owed<A: Actor>(
    alloc: Global,
    cells: &[A],
    pending: &mut Outbox<A::Msg>,
) -> Result<(), Memory>
where
    A::Msg: Drop,
    requires { AreCells A.meaning cells.now }
    ensures follows { OnOk result (pending.new ≡ pending.old ++ sent pending.old pending.new) }
    ensures owed { OnOk result (IsOwedInTurn A.meaning cells.now cells.now
        (sent pending.old pending.new)) }
    ensures lawful { OnOk result (AreAllLawful A.meaning cells.now (sent pending.old pending.new)) }
    ensures covered { OnOk result
        (IsOwedCovered A.meaning cells.now (sent pending.old pending.new)) }
{
    for cell in cells {
        let mut owed = Outbox::new(alloc);
        cell.list_owed(alloc, &mut owed)?;
        put_not_had(cells, owed, pending)?;
    }
    Ok(())
}

/// Appends those messages that their cells have not. Linear in the messages.
fn put_not_had<A: Actor>(
    cells: &[A],
    mut messages: Outbox<A::Msg>,
    pending: &mut Outbox<A::Msg>,
) -> Result<(), Memory>
where
    A::Msg: Drop,
    requires lawful { AreAllLawful A.meaning cells.now messages }
    requires apart { HasNoRepeats messages }
    ensures follows { OnOk result (pending.new ≡ pending.old ++ sent pending.old pending.new) }
    ensures not_had { OnOk result
        (IsNotHadOf A.meaning cells.now messages (sent pending.old pending.new)) }
{
    'messages: while let Some((cell, message)) = messages.take() {
        let place = cell as usize;
        let actor = &cells[place];
        if !actor.has(&message) {
            pending.put(cell, message)?;
        }
    }
    Ok(())
}
