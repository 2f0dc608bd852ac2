//! A cell over the hand-made index. Expected values are written by hand.
//! What has many parts is let go of by `drop`, which the prover takes as one step.
ghost use Rattle.std.specs.Prelude.{◌≡◌, [], ◌∷◌, true, IsTrue};
ghost use Rattle.cd_base.specs.Keys.{is_named, plain};
ghost use Rattle.cd_base.specs.Lists.{OneOf};
ghost use Rattle.cd_cell.specs.Cells.{IsWhole, IsSound, IsLawfulNote};
ghost use Rattle.cd_context.specs.declared.facts.Fact.TheVariants.{Link};

use crate::sample::hand_made;
use cd_actor::{Actor, Outbox};
use cd_base::{Atom, Key, Role};
use cd_cell::Cell;
use cd_context::{Fact, Note};
use cd_index::Index;
use std::alloc::Global;
use std::process::Abort;

/// The only cell, after the start message of the class 2.
fn started<'a>(rt: &impl Abort, alloc: Global, index: &'a Index, out: &mut Outbox<Note>) -> Cell<'a>
    requires { is_named index.now.normal 2 ≡ true }
{
    let mut cell = Cell::new(alloc, 0, 1, index);
    let start = Note {
        key: Key::single(alloc, Atom(2)),
        fact: Fact::Start,
    };
    assert!(rt; is_whole_after(alloc, &mut cell, start, out));
    cell
}

/// Whether the cell is whole after a delivery. Whatever the delivery answered, the cell is sound, and where it is whole it may take the next.
fn is_whole_after(alloc: Global, cell: &mut Cell<'_>, note: Note, out: &mut Outbox<Note>) -> bool
    requires whole { IsWhole cell.old }
    requires lawful { IsLawfulNote cell.old.normal cell.old.cells cell.old.number note }
    ensures sound { IsSound cell.new }
    ensures whole { IsTrue result → IsWhole cell.new }
{
    drop(cell.deliver(alloc, note, out));
    cell.is_whole()
}

/// That the class 2 has an edge to the class 4.
fn the_link(alloc: Global) -> Note
    ensures { result ≡ record { key = plain 4 ∷ []; fact = Link (plain 2 ∷ []) 0 } }
{
    Note {
        key: Key::single(alloc, Atom(4)),
        fact: Fact::Link(Key::single(alloc, Atom(2)), Role(0)),
    }
}

/// Whether the outbox has this note alone, for the only cell.
fn is_alone(mut out: Outbox<Note>, wanted: Note) -> bool {
    let alone = out.len() == 1;
    match out.take() {
        Some((cell, note)) => alone && cell == 0 && note == wanted,
        None => false,
    }
}

/// Whether the outbox has the link alone, for the only cell.
fn is_the_link_alone(alloc: Global, out: Outbox<Note>) -> bool {
    is_alone(out, the_link(alloc))
}

#[test]
fn a_start_message_begins_a_context_with_its_clauses(rt: HostRuntime) {
    let index = hand_made(&rt, rt.alloc());
    let mut out = Outbox::new(rt.alloc());
    let cell = started(&rt, rt.alloc(), &index, &mut out);
    assert_eq!(rt; cell.contexts(), 1);
    assert_eq!(rt; cell.facts(), 4);
    drop(cell);
    drop(out);
    drop(index);
}

#[test]
fn a_context_that_begins_tells_its_link(rt: HostRuntime) {
    let index = hand_made(&rt, rt.alloc());
    let mut out = Outbox::new(rt.alloc());
    drop(started(&rt, rt.alloc(), &index, &mut out));
    assert!(rt; is_the_link_alone(rt.alloc(), out));
    drop(index);
}

#[test]
fn what_a_cell_owes_is_listed_once(rt: HostRuntime) {
    let index = hand_made(&rt, rt.alloc());
    let mut sent = Outbox::new(rt.alloc());
    let cell = started(&rt, rt.alloc(), &index, &mut sent);
    drop(sent);
    let mut owed = Outbox::new(rt.alloc());
    cell.list_owed(rt.alloc(), &mut owed).expect(&rt, "memory");
    drop(cell);
    drop(index);
    assert!(rt; is_the_link_alone(rt.alloc(), owed));
}

/// The only cell, after the link alone.
fn linked<'a>(rt: &impl Abort, alloc: Global, index: &'a Index, out: &mut Outbox<Note>) -> Cell<'a>
    requires two { is_named index.now.normal 2 ≡ true }
    requires four { is_named index.now.normal 4 ≡ true }
    requires edge { OneOf (record { atom = 2; role = 0; other = 4 }) index.now.normal.n2 }
{
    let mut cell = Cell::new(alloc, 0, 1, index);
    cell.deliver(alloc, the_link(alloc), out)
        .expect(rt, "memory");
    cell
}

/// Whether the outbox has alone that what the edge from 2 leads to is a 4 for sure, for the only cell.
fn is_the_sure_alone(alloc: Global, out: Outbox<Note>) -> bool {
    let key = Key::single(alloc, Atom(2));
    let fact = Fact::Sure(Role(0), Key::single(alloc, Atom(4)), Atom(4));
    is_alone(out, Note { key, fact })
}

#[test]
fn a_link_begins_a_context_that_answers_with_a_sure(rt: HostRuntime) {
    let index = hand_made(&rt, rt.alloc());
    let mut out = Outbox::new(rt.alloc());
    let cell = linked(&rt, rt.alloc(), &index, &mut out);
    assert_eq!(rt; cell.contexts(), 1);
    assert_eq!(rt; cell.facts(), 3);
    drop(cell);
    assert!(rt; is_the_sure_alone(rt.alloc(), out));
    drop(index);
}
