//! Cells that take messages.
ghost use Rattle.std.specs.Prelude.{◌≡◌, ◌++◌, ◌<◌, ℕ, OnOk, true};
ghost use Rattle.cd_base.specs.Lists.{OneOf, HasNoRepeats};
ghost use Rattle.cd_actor.specs.Sends.{sent, Sends};
ghost use Rattle.cd_actor.specs.Meaning.{Meaning, Keeps, IsSame, Delivers};

use crate::outbox::Outbox;
use cd_base::Memory;
use std::alloc::Global;

/// A cell that takes messages and owes others.
///
/// It stands at a place of a family, and messages go to places of that family. A cell is whole while none of its deliveries has
/// wanted for memory; only a whole cell takes messages.
pub trait Actor {
    /// What cells send each other.
    type Msg;

    /// Its place and family, what it has and owes, its counts, and whether it is whole.
    ghost meaning: { Meaning Self Self.Msg };

    /// Takes the message, and appends what it came to owe.
    ///
    /// - `keeps`: whatever the answer, the cell stays at its place in its family, what it had it has, and no count falls.
    /// - `sends`: whatever the answer, `out` is only appended to, and each message that was appended is lawful for its cell.
    /// - `delivers`: at `Ok` the cell is whole and has the message, what it owes it owed before or has appended, and a message that
    ///   it did not have made a count rise, unless a count stands at the last `u64`.
    /// - `again`: a message that it had changes neither what it has and owes nor its counts.
    /// - `quiet`: a message that it had appends nothing.
    ///
    /// `Memory` may leave a cell that is not whole.
    fn deliver(
        &mut self,
        alloc: Global,
        message: Self::Msg,
        out: &mut Outbox<Self::Msg>,
    ) -> Result<(), Memory>
        requires whole { meaning.whole self.old }
        requires lawful { meaning.lawful self.old (meaning.place self.old) message }
        ensures keeps { Keeps meaning self.old self.new }
        ensures sends { Sends (meaning.lawful self.old) out.old out.new }
        ensures delivers { OnOk result
            (Delivers meaning self.old message self.new (sent out.old out.new)) }
        ensures again { meaning.has self.old message ≡ true → IsSame meaning self.old self.new }
        ensures quiet { meaning.has self.old message ≡ true → out.new ≡ out.old };

    /// Whether it has the message.
    fn has(&self, message: &Self::Msg) -> bool
        ensures { result ≡ meaning.has self.now message.now };

    /// Appends what it owes, each once.
    ///
    /// - `follows`: whatever the answer, `out` is only appended to.
    /// - `sends`: what a whole cell appends is lawful for its cell.
    /// - `only`: each message that was appended is owed.
    /// - `once`: none of them was appended twice.
    /// - `every`: at `Ok` all that it owes was appended.
    fn list_owed(&self, alloc: Global, out: &mut Outbox<Self::Msg>) -> Result<(), Memory>
        ensures follows { out.new ≡ out.old ++ sent out.old out.new }
        ensures sends { meaning.whole self.now → Sends (meaning.lawful self.now) out.old out.new }
        ensures only { (p : ℕ) (m : Self.Msg) → OneOf (p, m) (sent out.old out.new)
            → meaning.owes self.now p m }
        ensures once { HasNoRepeats (sent out.old out.new) }
        ensures every { OnOk result ((p : ℕ) (m : Self.Msg) → meaning.owes self.now p m
            → OneOf (p, m) (sent out.old out.new)) };

    /// How many contexts it has. A cell that has more than the last `u64` says that.
    fn contexts(&self) -> u64
        ensures { result ≡ meaning.contexts self.now };

    /// How many facts it has. A cell that has more than the last `u64` says that.
    fn facts(&self) -> u64
        ensures { result ≡ meaning.facts self.now };

    /// Cells of one family have the same number of places.
    ghost same_places: { (a b : Self) → meaning.family a ≡ meaning.family b
        → meaning.places a ≡ meaning.places b };

    /// Cells of one family have the same lawful messages.
    ghost same_lawful: { (a b : Self) → meaning.family a ≡ meaning.family b
        → (p : ℕ) (m : Self.Msg) → meaning.lawful a p m → meaning.lawful b p m };

    /// What is lawful for the cell of a place is lawful only at a place of the family.
    ghost lawful_below: { (a : Self) (p : ℕ) (m : Self.Msg) → meaning.lawful a p m
        → p < meaning.places a };

    /// What a whole cell owes is lawful for the cell that it owes it to.
    ghost owed_lawful: { (a : Self) (p : ℕ) (m : Self.Msg) → meaning.whole a → meaning.owes a p m
        → meaning.lawful a p m };
}
