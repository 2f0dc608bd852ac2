//! Contexts by their keys.
ghost use Rattle.std.specs.Prelude.{◌≡◌, ◌⊎◌, ◌+◌, ◌-◌, [], false, None, Some, min, IfOk, OnErr};
ghost use Rattle.std.specs.Option.{option_copied};
ghost use Rattle.cd_clause.specs.Derivations.{Reachable};
ghost use Rattle.cd_context.specs.Justified.{Justified, IsContext, ClosedLocally};
ghost use Rattle.cd_base.specs.Counts.{last};
ghost use Rattle.cd_context.specs.Facts.{has_fact, count};
ghost use Rattle.cd_context.specs.State.{State};
ghost use Rattle.cd_cell.specs.Cells.{has_note, contexts_of, facts_of, state_at};
ghost use Rattle.cd_cell.specs.Telling.{AreClosedContexts, AreOwed, AreOwn, IsNext, Puts, Takes, Tells};

use cd_base::{Key, Memory};
use cd_context::{Context, Fact, Note};
use cd_index::Index;
use indexmap::IndexMap;
use std::alloc::Global;
use std::marker::Model;

/// Contexts, each under its key, with the sum of their facts. Contracts see their keys and states, in the order in which they began.
#[derive(Debug, Drop)]
pub(crate) struct Contexts {
    by_key: IndexMap<Key, Context>,
    facts: u64,
}

impl Model for Contexts {
    ghost use Rattle.std.specs.Prelude.{ℕ, List, ◌≡◌, map};
    ghost use Rattle.cd_base.specs.Lists.{HasNoRepeats};
    ghost use Rattle.cd_context.specs.State.{State};
    ghost use Rattle.cd_cell.specs.Cells.{facts_of};

    ghost Value = { List (List ℕ × State) };

    ghost view = { λ c. c.by_key.entries };

    ghost invariant = { λ c. (c.facts ≡ facts_of c.by_key.entries)
        × HasNoRepeats (map (λ e. e.0) c.by_key.entries) };
}

impl Contexts {
    /// No contexts. Takes no memory and constant time.
    pub(crate) fn new(alloc: Global) -> Contexts
        ensures { result ≡ [] }
    {
        Contexts {
            by_key: IndexMap::new(alloc),
            facts: 0,
        }
    }

    /// How many they are. Constant time.
    pub(crate) fn len(&self) -> u64
        ensures { result ≡ contexts_of self.now }
    {
        self.by_key.len() as u64
    }

    /// How many facts they have. Constant time.
    pub(crate) fn facts(&self) -> u64
        ensures { result ≡ facts_of self.now }
    {
        self.facts
    }

    /// Whether the context of the note's key is there and has its fact. One look-up each.
    pub(crate) fn has(&self, note: &Note) -> bool
        ensures { result ≡ has_note self.now note.now }
    {
        match self.by_key.get(&note.key) {
            Some(context) => context.has(&note.fact),
            None => false,
        }
    }

    /// The context of the key, lent. One look-up.
    pub(crate) fn get(&self, key: &Key) -> Option<&Context>
        ensures { option_copied result ≡ state_at self.now key.now }
    {
        self.by_key.get(key)
    }

    /// What the contexts owe each other, each note once. The cost is that of the live clauses of each context times its links.
    pub(crate) fn list_owed(&self, alloc: Global, index: &Index) -> Result<Vec<Note>, Memory>
        requires { AreOwn self.now }
        ensures { IfOk result (λ notes. AreOwed index.now.normal self.now notes.items) }
    {
        let mut notes = Vec::new(alloc);
        for (_, context) in self.by_key.as_slice() {
            context.list_owed(alloc, index, &mut notes)?;
        }
        Ok(notes)
    }

    /// Gives the context of the key the fact, which it hasn't, and begins that context where there is none. The notes that it came to owe.
    ///
    /// One look-up and the cost of the rules; a second look-up where the context begins. After `Memory` the context has what it had, with
    /// the fact or without it, and may take no further fact.
    pub(crate) fn tell(
        &mut self,
        alloc: Global,
        index: &Index,
        key: &Key,
        fact: Fact,
    ) -> Result<Vec<Note>, Memory>
        requires closed { AreClosedContexts index.now.normal self.old }
        requires reachable { Reachable index.now.normal key.now }
        requires justified { Justified index.now.normal key.now fact }
        requires fresh { (s : State) → state_at self.old key.now ≡ Some s
            → has_fact s fact ≡ false }
        ensures ok { IfOk result (λ notes.
            Tells index.now.normal self.old key.now fact self.new notes.items) }
        ensures err { OnErr result ((self.new ≡ self.old)
            ⊎ Puts index.now.normal self.old key.now self.new) }
    {
        match self.by_key.get_mut(key) {
            Some(context) => take(context, &mut self.facts, alloc, index, fact),
            None => self.begin(alloc, index, key, fact),
        }
    }

    /// Begins the context of the key, which has none, and gives it the fact. The notes that it owes.
    ///
    /// One look-up and the cost of the rules. After `Memory` there is no new context.
    fn begin(
        &mut self,
        alloc: Global,
        index: &Index,
        key: &Key,
        fact: Fact,
    ) -> Result<Vec<Note>, Memory>
        requires absent { state_at self.old key.now ≡ None }
        requires reachable { Reachable index.now.normal key.now }
        requires justified { Justified index.now.normal key.now fact }
        ensures ok { IfOk result (λ notes.
            Tells index.now.normal self.old key.now fact self.new notes.items) }
        ensures err { OnErr result (self.new ≡ self.old) }
    {
        // both copies come first, so that nothing but them is lost where there is no memory for one
        let kept = key.copy()?;
        let own = key.copy()?;
        let (context, notes) = begin_with(alloc, index, own, fact)?;
        let facts = context.facts();
        self.by_key.insert(kept, context)?;
        self.facts = self.facts.saturating_add(facts);
        Ok(notes)
    }
}

/// Gives the context the fact, which it hasn't, and adds what it gained to the sum, whatever the answer. The notes that it came to owe.
fn take(
    context: &mut Context,
    sum: &mut u64,
    alloc: Global,
    index: &Index,
    fact: Fact,
) -> Result<Vec<Note>, Memory>
    requires context { IsContext index.now.normal context.old }
    requires closed { ClosedLocally index.now.normal context.old }
    requires justified { Justified index.now.normal context.old.key fact }
    requires fresh { has_fact context.old fact ≡ false }
    ensures next { IsNext index.now.normal (Some context.old) context.old.key context.new }
    ensures sum { sum.new ≡ min (sum.old + (count context.new - count context.old)) last }
    ensures ok { IfOk result (λ notes.
        Takes index.now.normal (Some context.old) fact context.new notes.items) }
{
    let before = context.facts();
    let mut notes = Vec::new(alloc);
    let taken = context.absorb_new(alloc, fact, index, &mut notes);
    *sum = sum.saturating_add(context.facts() - before);
    taken?;
    Ok(notes)
}

/// The context of the key with the fact, and the notes that it owes.
fn begin_with(
    alloc: Global,
    index: &Index,
    key: Key,
    fact: Fact,
) -> Result<(Context, Vec<Note>), Memory>
    requires reachable { Reachable index.now.normal key }
    requires justified { Justified index.now.normal key fact }
    ensures next { IfOk result (λ begun. IsNext index.now.normal None key begun.0) }
    ensures ok { IfOk result (λ begun. Takes index.now.normal None fact begun.0 begun.1.items) }
{
    let mut notes = Vec::new(alloc);
    let mut context = Context::begin(alloc, key, index, &mut notes)?;
    context.absorb(alloc, fact, index, &mut notes)?;
    Ok((context, notes))
}
