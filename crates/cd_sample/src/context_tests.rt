//! A context over the hand-made indexes, alone and told of the contexts of its existentials. Expected values are written by hand.
//! What has many parts is let go of by `drop`, which the prover takes as one step.
ghost use Rattle.std.specs.Prelude.{◌≡◌, ◌∷◌, [], true};
ghost use Rattle.cd_base.specs.Keys.{is_named, plain, negated};
ghost use Rattle.cd_base.specs.Lists.{OneOf};
ghost use Rattle.cd_context.specs.Justified.{IsContext, ClosedLocally};

use crate::sample::{choice_index, hand_made, idle_index, universal_index};
use cd_base::{Atom, Key, Lit, Role};
use cd_context::{Context, Fact, Note};
use cd_index::Index;
use std::alloc::Global;
use std::process::Abort;

/// Begins the context of a class.
fn begin(rt: &impl Abort, alloc: Global, index: &Index, class: u32, out: &mut Vec<Note>) -> Context
    requires { is_named index.now.normal class ≡ true }
    ensures key { result.key ≡ plain class ∷ [] }
    ensures context { IsContext index.now.normal result }
    ensures closed { ClosedLocally index.now.normal result }
{
    Context::begin(alloc, Key::single(alloc, Atom(class)), index, out).expect(rt, "memory")
}

/// The context of a class.
fn begun(rt: &impl Abort, alloc: Global, index: &Index, class: u32) -> Context
    requires { is_named index.now.normal class ≡ true }
    ensures key { result.key ≡ plain class ∷ [] }
    ensures context { IsContext index.now.normal result }
    ensures closed { ClosedLocally index.now.normal result }
{
    let mut out = Vec::new(alloc);
    let context = begin(rt, alloc, index, class, &mut out);
    drop(out);
    context
}

/// What the context of the class 2 tells when it begins.
fn notes_when_begun(rt: &impl Abort, alloc: Global, index: &Index) -> Vec<Note>
    requires { is_named index.now.normal 2 ≡ true }
{
    let mut out = Vec::new(alloc);
    drop(begin(rt, alloc, index, 2, &mut out));
    out
}

/// Whether it has the clauses of 2, of owl:Thing and of 3, and that of the edge, and no other.
fn is_as_it_should_be(context: &Context) -> bool {
    context.facts() == 4
        && context.has_single(Atom(2))
        && context.has_single(Atom(0))
        && context.has_single(Atom(3))
        && !context.has_single(Atom(5))
        && !context.has_empty()
}

#[test]
fn a_context_is_closed(rt: HostRuntime) {
    let index = hand_made(&rt, rt.alloc());
    let context = begun(&rt, rt.alloc(), &index, 2);
    assert!(rt; is_as_it_should_be(&context));
    drop(context);
    drop(index);
}

/// Whether these are the atoms 0, 2 and 3.
fn are_the_three(atoms: &[Atom]) -> bool {
    atoms.len() == 3 && atoms[0].number() == 0 && atoms[1].number() == 2 && atoms[2].number() == 3
}

#[test]
fn the_atoms_that_stand_alone_ascend(rt: HostRuntime) {
    let index = hand_made(&rt, rt.alloc());
    let context = begun(&rt, rt.alloc(), &index, 2);
    let atoms = context.singles(rt.alloc()).expect(&rt, "memory");
    assert!(rt; are_the_three(atoms.as_slice()));
    drop(context);
    drop(index);
}

/// Whether it has the clauses of 2, of owl:Thing and of 3, that of the edge to a 4, and that of the edge to what is a 4 and a 5.
fn has_what_pairs_give(context: &Context) -> bool {
    context.facts() == 5 && context.has_single(Atom(3))
}

#[test]
fn clauses_that_are_of_use_to_each_other_meet(rt: HostRuntime) {
    let index = universal_index(&rt, rt.alloc());
    let context = begun(&rt, rt.alloc(), &index, 2);
    assert!(rt; has_what_pairs_give(&context));
    drop(context);
    drop(index);
}

/// The key of 4.
fn four(alloc: Global) -> Key
    ensures { result ≡ plain 4 ∷ [] }
{
    Key::single(alloc, Atom(4))
}

/// The key of 4 and not 4.
fn four_and_not_four(rt: &impl Abort, alloc: Global) -> Key
    ensures { result ≡ plain 4 ∷ negated 4 ∷ [] }
{
    let not_four = Lit {
        atom: Atom(4),
        negated: true,
    };
    four(alloc).with(not_four).expect(rt, "memory")
}

/// The key of 2.
fn two(alloc: Global) -> Key
    ensures { result ≡ plain 2 ∷ [] }
{
    Key::single(alloc, Atom(2))
}

/// Whether the notes are this one, and no other.
fn are_only(notes: &[Note], wanted: Note) -> bool {
    let holds = match notes {
        [note] => *note == wanted,
        _ => false,
    };
    drop(wanted);
    holds
}

/// Whether the notes are the link of 2 to the context of this key, and no other.
fn are_the_link_to(alloc: Global, notes: &[Note], key: Key) -> bool {
    let fact = Fact::Link(two(alloc), Role(0));
    are_only(notes, Note { key, fact })
}

/// Whether the notes are that the context of 4 has the clause of 4 alone, for the context of 2, and no other.
fn are_the_sure_of_four(alloc: Global, notes: &[Note]) -> bool {
    let key = two(alloc);
    let fact = Fact::Sure(Role(0), four(alloc), Atom(4));
    are_only(notes, Note { key, fact })
}

/// Whether the notes are that the context of 4 has a clause whose greatest element is 5, for the context of 2, and no other.
fn are_the_back_of_five(alloc: Global, notes: &[Note]) -> bool {
    let key = two(alloc);
    let fact = Fact::Back(Role(0), four(alloc), Atom(5));
    are_only(notes, Note { key, fact })
}

/// The key of 4 and 5.
fn four_and_five(rt: &impl Abort, alloc: Global) -> Key
    ensures { result ≡ plain 4 ∷ plain 5 ∷ [] }
{
    let five = Lit {
        atom: Atom(5),
        negated: false,
    };
    four(alloc).with(five).expect(rt, "memory")
}

#[test]
fn the_existential_that_pairs_give_is_told_and_what_it_covers_is_not(rt: HostRuntime) {
    let index = universal_index(&rt, rt.alloc());
    let notes = notes_when_begun(&rt, rt.alloc(), &index);
    let key = four_and_five(&rt, rt.alloc());
    assert!(rt; are_the_link_to(rt.alloc(), notes.as_slice(), key));
    drop(notes);
    drop(index);
}

/// Tells the context of 2 that the context of 4 has the class 4 in some case.
fn tell_back(
    rt: &impl Abort,
    alloc: Global,
    index: &Index,
    context: &mut Context,
    out: &mut Vec<Note>,
)
    requires ranks { index.now.normal.ranks ≡ [] }
    requires idle { OneOf (record { left = 4 ∷ []; right = 3 ∷ 4 ∷ [] }) index.now.normal.n1 }
    requires edge { OneOf (record { atom = 2; role = 0; other = 4 }) index.now.normal.n2 }
    requires key { context.old.key ≡ plain 2 ∷ [] }
    requires context { IsContext index.now.normal context.old }
    requires closed { ClosedLocally index.now.normal context.old }
    ensures key { context.new.key ≡ plain 2 ∷ [] }
    ensures context { IsContext index.now.normal context.new }
    ensures closed { ClosedLocally index.now.normal context.new }
{
    context
        .absorb(alloc, Fact::Back(Role(0), four(alloc), Atom(4)), index, out)
        .expect(rt, "memory");
}

/// Tells the context of 2 that the context of 4 has the clause of 4 alone.
fn tell_sure(
    rt: &impl Abort,
    alloc: Global,
    index: &Index,
    context: &mut Context,
    out: &mut Vec<Note>,
)
    requires edge { OneOf (record { atom = 2; role = 0; other = 4 }) index.now.normal.n2 }
    requires key { context.old.key ≡ plain 2 ∷ [] }
    requires context { IsContext index.now.normal context.old }
    requires closed { ClosedLocally index.now.normal context.old }
{
    context
        .absorb(alloc, Fact::Sure(Role(0), four(alloc), Atom(4)), index, out)
        .expect(rt, "memory");
}

/// Whether the sure gives the clause of 5, and nothing is told.
fn is_silent_at_the_sure(
    rt: &impl Abort,
    alloc: Global,
    index: &Index,
    context: &mut Context,
) -> bool
    requires edge { OneOf (record { atom = 2; role = 0; other = 4 }) index.now.normal.n2 }
    requires key { context.old.key ≡ plain 2 ∷ [] }
    requires context { IsContext index.now.normal context.old }
    requires closed { ClosedLocally index.now.normal context.old }
{
    let mut out = Vec::new(alloc);
    let had = context.has_single(Atom(5));
    tell_sure(rt, alloc, index, context, &mut out);
    let holds = !had && context.has_single(Atom(5)) && context.facts() == 6 && out.is_empty();
    drop(out);
    holds
}

#[test]
fn what_holds_for_sure_of_an_existential_needs_no_case(rt: HostRuntime) {
    let index = hand_made(&rt, rt.alloc());
    let mut context = begun(&rt, rt.alloc(), &index, 2);
    assert!(rt; is_silent_at_the_sure(&rt, rt.alloc(), &index, &mut context));
    drop(context);
    drop(index);
}

/// Tells the context of 2 that the context of 4 and not 4 has the empty clause.
fn tell_dead(
    rt: &impl Abort,
    alloc: Global,
    index: &Index,
    context: &mut Context,
    out: &mut Vec<Note>,
)
    requires ranks { index.now.normal.ranks ≡ [] }
    requires idle { OneOf (record { left = 4 ∷ []; right = 3 ∷ 4 ∷ [] }) index.now.normal.n1 }
    requires edge { OneOf (record { atom = 2; role = 0; other = 4 }) index.now.normal.n2 }
    requires back { OneOf (record { atom = 4; role = 0; other = 5 }) index.now.normal.n3 }
    requires key { context.old.key ≡ plain 2 ∷ [] }
    requires context { IsContext index.now.normal context.old }
    requires closed { ClosedLocally index.now.normal context.old }
{
    let key = four_and_not_four(rt, alloc);
    context
        .absorb(alloc, Fact::Dead(Role(0), key), index, out)
        .expect(rt, "memory");
}

/// Whether the back gives a clause, and the link to its existential alone.
fn tells_of_the_back(rt: &impl Abort, alloc: Global, index: &Index, context: &mut Context) -> bool
    requires ranks { index.now.normal.ranks ≡ [] }
    requires idle { OneOf (record { left = 4 ∷ []; right = 3 ∷ 4 ∷ [] }) index.now.normal.n1 }
    requires edge { OneOf (record { atom = 2; role = 0; other = 4 }) index.now.normal.n2 }
    requires key { context.old.key ≡ plain 2 ∷ [] }
    requires context { IsContext index.now.normal context.old }
    requires closed { ClosedLocally index.now.normal context.old }
    ensures key { context.new.key ≡ plain 2 ∷ [] }
    ensures context { IsContext index.now.normal context.new }
    ensures closed { ClosedLocally index.now.normal context.new }
{
    let mut out = Vec::new(alloc);
    tell_back(rt, alloc, index, context, &mut out);
    let key = four_and_not_four(rt, alloc);
    let holds = context.facts() == 6 && are_the_link_to(alloc, out.as_slice(), key);
    drop(out);
    holds
}

/// Whether the dead gives the clause of 5, and nothing is told.
fn is_silent_at_the_dead(
    rt: &impl Abort,
    alloc: Global,
    index: &Index,
    context: &mut Context,
) -> bool
    requires ranks { index.now.normal.ranks ≡ [] }
    requires idle { OneOf (record { left = 4 ∷ []; right = 3 ∷ 4 ∷ [] }) index.now.normal.n1 }
    requires edge { OneOf (record { atom = 2; role = 0; other = 4 }) index.now.normal.n2 }
    requires back { OneOf (record { atom = 4; role = 0; other = 5 }) index.now.normal.n3 }
    requires key { context.old.key ≡ plain 2 ∷ [] }
    requires context { IsContext index.now.normal context.old }
    requires closed { ClosedLocally index.now.normal context.old }
{
    let mut out = Vec::new(alloc);
    let had = context.has_single(Atom(5));
    tell_dead(rt, alloc, index, context, &mut out);
    let holds = !had && context.has_single(Atom(5)) && context.facts() == 8 && out.is_empty();
    drop(out);
    holds
}

/// Whether it owes the link to the context of 4, and no other, so that the existential to the context of 4 and not 4 isn't live.
fn owes_the_first_link_alone(
    rt: &impl Abort,
    alloc: Global,
    index: &Index,
    context: &Context,
) -> bool {
    let mut out = Vec::new(alloc);
    context
        .list_owed(alloc, index, &mut out)
        .expect(rt, "memory");
    let holds = are_the_link_to(alloc, out.as_slice(), four(alloc));
    drop(out);
    holds
}

#[test]
fn a_clause_whose_existential_is_impossible_gives_way_to_its_rest(rt: HostRuntime) {
    let index = idle_index(&rt, rt.alloc());
    let mut context = begun(&rt, rt.alloc(), &index, 2);
    assert!(rt; owes_the_first_link_alone(&rt, rt.alloc(), &index, &context));
    assert!(rt; tells_of_the_back(&rt, rt.alloc(), &index, &mut context));
    assert!(rt; is_silent_at_the_dead(&rt, rt.alloc(), &index, &mut context));
    assert!(rt; owes_the_first_link_alone(&rt, rt.alloc(), &index, &context));
    drop(context);
    drop(index);
}

#[test]
fn an_existential_is_told_as_a_link(rt: HostRuntime) {
    let index = hand_made(&rt, rt.alloc());
    let notes = notes_when_begun(&rt, rt.alloc(), &index);
    assert!(rt; are_the_link_to(rt.alloc(), notes.as_slice(), four(rt.alloc())));
    drop(notes);
    drop(index);
}

/// Tells the context of 4 that the context of 2 has an existential to it.
fn tell_link(
    rt: &impl Abort,
    alloc: Global,
    index: &Index,
    context: &mut Context,
    out: &mut Vec<Note>,
)
    requires two { is_named index.now.normal 2 ≡ true }
    requires edge { OneOf (record { atom = 2; role = 0; other = 4 }) index.now.normal.n2 }
    requires key { context.old.key ≡ plain 4 ∷ [] }
    requires context { IsContext index.now.normal context.old }
    requires closed { ClosedLocally index.now.normal context.old }
{
    context
        .absorb(alloc, Fact::Link(two(alloc), Role(0)), index, out)
        .expect(rt, "memory");
}

/// Whether the link makes the context tell 2 that it has the class 4 for sure, and nothing else, and is the only fact that comes.
fn tells_of_its_class(rt: &impl Abort, alloc: Global, index: &Index, context: &mut Context) -> bool
    requires two { is_named index.now.normal 2 ≡ true }
    requires edge { OneOf (record { atom = 2; role = 0; other = 4 }) index.now.normal.n2 }
    requires key { context.old.key ≡ plain 4 ∷ [] }
    requires context { IsContext index.now.normal context.old }
    requires closed { ClosedLocally index.now.normal context.old }
{
    let mut out = Vec::new(alloc);
    let before = context.facts();
    tell_link(rt, alloc, index, context, &mut out);
    let told = are_the_sure_of_four(alloc, out.as_slice());
    drop(out);
    before == 2 && told && context.facts() == 3
}

/// Whether it owes the sure of 4 to the context of 2, and no other.
fn owes_the_sure_of_four(rt: &impl Abort, alloc: Global, index: &Index, context: &Context) -> bool {
    let mut out = Vec::new(alloc);
    context
        .list_owed(alloc, index, &mut out)
        .expect(rt, "memory");
    let holds = are_the_sure_of_four(alloc, out.as_slice());
    drop(out);
    holds
}

#[test]
fn a_link_is_answered_by_a_sure_for_the_atom_of_use(rt: HostRuntime) {
    let index = hand_made(&rt, rt.alloc());
    let mut context = begun(&rt, rt.alloc(), &index, 4);
    assert!(rt; tells_of_its_class(&rt, rt.alloc(), &index, &mut context));
    assert!(rt; owes_the_sure_of_four(&rt, rt.alloc(), &index, &context));
    drop(context);
    drop(index);
}

/// Whether the link makes the context tell 2 that it has the class 5 in some case, and nothing else.
fn tells_of_its_case(rt: &impl Abort, alloc: Global, index: &Index, context: &mut Context) -> bool
    requires two { is_named index.now.normal 2 ≡ true }
    requires edge { OneOf (record { atom = 2; role = 0; other = 4 }) index.now.normal.n2 }
    requires key { context.old.key ≡ plain 4 ∷ [] }
    requires context { IsContext index.now.normal context.old }
    requires closed { ClosedLocally index.now.normal context.old }
{
    let mut out = Vec::new(alloc);
    tell_link(rt, alloc, index, context, &mut out);
    let told = are_the_back_of_five(alloc, out.as_slice());
    drop(out);
    told
}

#[test]
fn a_link_is_answered_by_a_back_for_the_greatest_atom_of_two(rt: HostRuntime) {
    let index = choice_index(&rt, rt.alloc());
    let mut context = begun(&rt, rt.alloc(), &index, 4);
    assert!(rt; tells_of_its_case(&rt, rt.alloc(), &index, &mut context));
    drop(context);
    drop(index);
}
