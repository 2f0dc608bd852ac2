//! A context.
ghost use Rattle.std.specs.Prelude.{◌≡◌, ◌↔◌, ◌<◌, ◌⊎◌, ℕ, List, [], true, false, IsOk, IfOk, OnOk, OnErr};
ghost use Rattle.std.specs.List.Sorted.{IsStrictlyIncreasing};
ghost use Rattle.cd_base.specs.Lists.{OneOf};
ghost use Rattle.cd_clause.specs.Derivations.{Reachable, IsSingle};
ghost use Rattle.cd_context.specs.Absorbing.{Keeps, Absorbs};
ghost use Rattle.cd_context.specs.Contract.{Grows, GainsOnly, Sends, ListsOwed};
ghost use Rattle.cd_base.specs.Counts.{last};
ghost use Rattle.cd_context.specs.FactLists.{state_of, told_in};
ghost use Rattle.cd_context.specs.Facts.{has_fact, count};
ghost use Rattle.cd_context.specs.Justified.{Justified, IsContext, ClosedLocally, IsInTurn};
ghost use Rattle.cd_context.specs.OpenNames.{IsOpenName};
ghost use Rattle.cd_context.specs.Owes.{Owes};
ghost use Rattle.cd_context.specs.State.{State, live_of};
ghost use Rattle.cd_context.specs.TakeUp.{ClosedUpTo, Continues, stored_before};
ghost use Rattle.cd_clause.specs.declared.elem.Elem.{Elem};
ghost use Rattle.cd_rules.specs.Facts.{ConcludesFrom};
ghost use Rattle.cd_context.specs.declared.facts.Fact.TheVariants.{Link, Back, Sure, Dead};

use crate::closing::close_with;
use crate::distinct::append_distinct;
use crate::fact_lists::FactLists;
use crate::fact_rules::{conclude_back, conclude_dead, conclude_sure};
use crate::facts::{Fact, LinkFact, Note};
use crate::live::{has_empty, has_single, singles};
use crate::open::open_names;
use crate::owing::{owe_link, owe_since};
use crate::sending::send_since;
use cd_base::{Atom, Key, Memory};
use cd_clause::Clause;
use cd_index::Index;
use cd_rules::{BackFact, DeadFact, SureFact, on_key};
use cd_store::Store;
use std::alloc::Global;
use std::marker::Model;

/// The clauses of a key, closed under the rules, and what the context was told. Contracts see its `State`.
#[derive(Debug, Drop)]
pub struct Context {
    key: Key,
    store: Store,
    facts: FactLists,
}

impl Model for Context {
    ghost use Rattle.cd_context.specs.State.{State};

    ghost Value = { State };

    ghost view = { λ c. record {
      key = c.key;
      clauses = c.store.clauses;
      live = c.store.live;
      links = c.facts.links;
      backs = c.facts.backs;
      sures = c.facts.sures;
      deads = c.facts.deads;
    } };
}

impl Context {
    /// The context of a key, closed under the rules, with no fact but `Start`. What it owes is appended to `out`.
    ///
    /// The cost is that of adding each conclusion, and for each clause that is taken up that of finding the clauses that can be of use
    /// beside it, and of the rules with these. After `Memory` nothing was appended.
    pub fn begin(
        alloc: Global,
        key: Key,
        index: &Index,
        out: &mut Vec<Note>,
    ) -> Result<Context, Memory>
        requires { Reachable index.now.normal key }
        ensures context { IfOk result (λ c. IsContext index.now.normal c) }
        ensures closed { IfOk result (λ c. ClosedLocally index.now.normal c) }
        ensures key { IfOk result (λ c. c.key ≡ key) }
        ensures facts { IfOk result
            (λ c. (c.links ≡ []) × (c.backs ≡ []) × (c.sures ≡ []) × (c.deads ≡ [])) }
        ensures sends { IfOk result
            (λ c. Sends index.now.normal (Unit {0}) (λ note. ⊥) c out.old.items out.new.items) }
        ensures err { OnErr result (out.new.items ≡ out.old.items) }
    {
        let mut store = Store::new(alloc);
        let facts = FactLists::new(alloc);
        match close_first(alloc, index, &key, &facts, &mut store, out) {
            Ok(()) => Ok(Context { key, store, facts }),
            Err(memory) => {
                drop((key, store, facts));
                Err(memory)
            }
        }
    }

    /// Takes a fact. The context is closed again, and what it came to owe is appended to `out`. A fact that it has changes nothing.
    ///
    /// One look-up, and the cost of `absorb_new` where it hasn't the fact. After `Memory` nothing was appended, and the context keeps all
    /// that it had, with the fact or without it; it may not be closed, and then no further fact may come.
    pub fn absorb(
        &mut self,
        alloc: Global,
        fact: Fact,
        index: &Index,
        out: &mut Vec<Note>,
    ) -> Result<(), Memory>
        requires context { IsContext index.now.normal self.old }
        requires closed { ClosedLocally index.now.normal self.old }
        requires justified { Justified index.now.normal self.old.key fact }
        ensures context { IsContext index.now.normal self.new }
        ensures grows { Grows self.old self.new }
        ensures only { GainsOnly self.old fact self.new }
        ensures closed { OnOk result (ClosedLocally index.now.normal self.new) }
        ensures had { OnOk result (has_fact self.new fact ≡ true) }
        ensures risen { OnOk result (has_fact self.old fact ≡ false
            → (count self.old < count self.new) ⊎ (count self.new ≡ last)) }
        ensures sends { OnOk result
            (Sends index.now.normal (Unit {0}) (Owes index.now.normal self.old) self.new
            out.old.items out.new.items) }
        ensures err { OnErr result (out.new.items ≡ out.old.items) }
        ensures again { has_fact self.old fact ≡ true
            → (self.new ≡ self.old) × (out.new.items ≡ out.old.items) }
    {
        if self.has(&fact) {
            return Ok(());
        }
        self.absorb_new(alloc, fact, index, out)
    }

    /// Takes a fact that it hasn't, as `absorb` does, for a caller that has asked.
    ///
    /// For a link a walk over the live clauses, for a back, sure or dead that of `conclude_back`, and the cost of `begin` for each clause that is
    /// taken up. After `Memory` as after that of `absorb`.
    pub fn absorb_new(
        &mut self,
        alloc: Global,
        fact: Fact,
        index: &Index,
        out: &mut Vec<Note>,
    ) -> Result<(), Memory>
        requires context { IsContext index.now.normal self.old }
        requires closed { ClosedLocally index.now.normal self.old }
        requires justified { Justified index.now.normal self.old.key fact }
        requires fresh { has_fact self.old fact ≡ false }
        ensures context { IsContext index.now.normal self.new }
        ensures grows { Grows self.old self.new }
        ensures only { GainsOnly self.old fact self.new }
        ensures closed { OnOk result (ClosedLocally index.now.normal self.new) }
        ensures had { OnOk result (has_fact self.new fact ≡ true) }
        ensures risen { OnOk result ((count self.old < count self.new) ⊎ (count self.new ≡ last)) }
        ensures sends { OnOk result
            (Sends index.now.normal (Unit {0}) (Owes index.now.normal self.old) self.new
            out.old.items out.new.items) }
        ensures err { OnErr result (out.new.items ≡ out.old.items) }
    {
        match fact {
            // every context has it, so this arm isn't reached
            Fact::Start => Ok(()),
            Fact::Link(key, role) => self.absorb_link(alloc, LinkFact { key, role }, index, out),
            Fact::Back(role, key, atom) => {
                self.absorb_back(alloc, BackFact { role, key, atom }, index, out)
            }
            Fact::Sure(role, key, atom) => {
                self.absorb_sure(alloc, SureFact { role, key, atom }, index, out)
            }
            Fact::Dead(role, key) => self.absorb_dead(alloc, DeadFact { role, key }, index, out),
        }
    }

    /// Takes a link that it didn't have, and appends what it owes there.
    ///
    /// Linear in the live clauses. After `Memory` nothing was appended, and it has the link or not.
    fn absorb_link(
        &mut self,
        alloc: Global,
        link: LinkFact,
        index: &Index,
        out: &mut Vec<Note>,
    ) -> Result<(), Memory>
        requires context { IsContext index.now.normal self.old }
        requires closed { ClosedLocally index.now.normal self.old }
        requires justified { Justified index.now.normal self.old.key (Link link.key link.role) }
        requires fresh { has_fact self.old (Link link.key link.role) ≡ false }
        ensures keeps { Keeps index.now.normal self.old (Link link.key link.role) self.new }
        ensures ok { OnOk result (Absorbs index.now.normal self.old
            (Link link.key link.role) self.new out.old.items out.new.items) }
        ensures err { OnErr result (out.new.items ≡ out.old.items) }
    {
        let mut notes = Vec::new(alloc);
        owe_link(alloc, index, &self.key, &self.store, &link, &mut notes)?;
        self.facts.add_link(link)?;
        out.append(&mut notes)?;
        Ok(())
    }

    /// Takes a back that it didn't have, closes again, and appends what it came to owe.
    ///
    /// Linear in the clauses with its existential, with the cost of `begin` for each clause that is taken up. After `Memory` nothing was
    /// appended, and it has the back or not.
    fn absorb_back(
        &mut self,
        alloc: Global,
        back: BackFact,
        index: &Index,
        out: &mut Vec<Note>,
    ) -> Result<(), Memory>
        requires context { IsContext index.now.normal self.old }
        requires closed { ClosedLocally index.now.normal self.old }
        requires justified { Justified index.now.normal self.old.key
            (Back back.role back.key back.atom) }
        requires fresh { has_fact self.old (Back back.role back.key back.atom) ≡ false }
        ensures keeps { Keeps index.now.normal self.old
            (Back back.role back.key back.atom) self.new }
        ensures ok { OnOk result (Absorbs index.now.normal self.old
            (Back back.role back.key back.atom) self.new out.old.items out.new.items) }
        ensures err { OnErr result (out.new.items ≡ out.old.items) }
    {
        let mut conclusions = Vec::new(alloc);
        conclude_back(alloc, index, &self.store, &back, &mut conclusions)?;
        self.facts.add_back(back)?;
        close_since(
            alloc,
            index,
            &self.key,
            &self.facts,
            &mut self.store,
            conclusions,
            out,
        )
    }

    /// Takes a sure that it didn't have, closes again, and appends what it came to owe.
    ///
    /// Linear in the clauses with its existential, with the cost of `begin` for each clause that is taken up. After `Memory` nothing was
    /// appended, and it has the sure or not.
    fn absorb_sure(
        &mut self,
        alloc: Global,
        sure: SureFact,
        index: &Index,
        out: &mut Vec<Note>,
    ) -> Result<(), Memory>
        requires context { IsContext index.now.normal self.old }
        requires closed { ClosedLocally index.now.normal self.old }
        requires justified { Justified index.now.normal self.old.key
            (Sure sure.role sure.key sure.atom) }
        requires fresh { has_fact self.old (Sure sure.role sure.key sure.atom) ≡ false }
        ensures keeps { Keeps index.now.normal self.old
            (Sure sure.role sure.key sure.atom) self.new }
        ensures ok { OnOk result (Absorbs index.now.normal self.old
            (Sure sure.role sure.key sure.atom) self.new out.old.items out.new.items) }
        ensures err { OnErr result (out.new.items ≡ out.old.items) }
    {
        let mut conclusions = Vec::new(alloc);
        conclude_sure(alloc, index, &self.store, &sure, &mut conclusions)?;
        self.facts.add_sure(sure)?;
        close_since(
            alloc,
            index,
            &self.key,
            &self.facts,
            &mut self.store,
            conclusions,
            out,
        )
    }

    /// Takes a dead that it didn't have, closes again, and appends what it came to owe.
    ///
    /// Linear in the clauses with its existential, with the cost of `begin` for each clause that is taken up. After `Memory` nothing was
    /// appended, and it has the dead or not.
    fn absorb_dead(
        &mut self,
        alloc: Global,
        dead: DeadFact,
        index: &Index,
        out: &mut Vec<Note>,
    ) -> Result<(), Memory>
        requires context { IsContext index.now.normal self.old }
        requires closed { ClosedLocally index.now.normal self.old }
        requires justified { Justified index.now.normal self.old.key (Dead dead.role dead.key) }
        requires fresh { has_fact self.old (Dead dead.role dead.key) ≡ false }
        ensures keeps { Keeps index.now.normal self.old (Dead dead.role dead.key) self.new }
        ensures ok { OnOk result (Absorbs index.now.normal self.old
            (Dead dead.role dead.key) self.new out.old.items out.new.items) }
        ensures err { OnErr result (out.new.items ≡ out.old.items) }
    {
        let mut conclusions = Vec::new(alloc);
        conclude_dead(alloc, index, &self.store, &dead, &mut conclusions)?;
        self.facts.add_dead(dead)?;
        close_since(
            alloc,
            index,
            &self.key,
            &self.facts,
            &mut self.store,
            conclusions,
            out,
        )
    }

    /// Its key, lent. Constant time.
    pub fn key(&self) -> &Key
        ensures { result.now ≡ self.now.key }
    {
        &self.key
    }

    /// Whether it has the fact. Every context has `Start`. One look-up.
    pub fn has(&self, fact: &Fact) -> bool
        ensures { result ≡ has_fact self.now fact.now }
    {
        self.facts.has(fact)
    }

    /// How many clauses it has stored, live or dead, with its links, backs, sures and deads. Constant time.
    pub fn facts(&self) -> u64
        ensures { result ≡ count self.now }
    {
        let clauses = self.store.clauses().len() as u64;
        let links = self.facts.links().len() as u64;
        let backs = self.facts.backs().len() as u64;
        let sures = self.facts.sures().len() as u64;
        let deads = self.facts.deads().len() as u64;
        let told = backs.saturating_add(sures.saturating_add(deads));
        clauses.saturating_add(links.saturating_add(told))
    }

    /// Whether the empty clause is live. Constant time: where it is, it is the last one that was stored.
    pub fn has_empty(&self) -> bool
        ensures { (result ≡ true) ↔ OneOf [] (live_of self.now) }
    {
        has_empty(self.store.clauses(), self.store.live())
    }

    /// Whether the clause of this atom alone is live. Linear in the live clauses.
    pub fn has_single(&self, atom: Atom) -> bool
        ensures { (result ≡ true) ↔ IsSingle (live_of self.now) atom }
    {
        has_single(self.store.clauses(), self.store.live(), atom)
    }

    /// The atoms whose one-element clause is live, ascending, each once. Linear in the live clauses, and `n log n` in the atoms.
    pub fn singles(&self, alloc: Global) -> Result<Vec<Atom>, Memory>
        ensures exact { IfOk result (λ atoms. (b : ℕ) → OneOf b atoms.items
            ↔ IsSingle (live_of self.now) b) }
        ensures ascends { IfOk result (λ atoms. IsStrictlyIncreasing atoms.items) }
    {
        let clauses = self.store.clauses();
        let live = self.store.live();
        singles(alloc, clauses, live)
    }

    /// The named atoms that it leaves open, ascending, each once: those that are the greatest element of a live clause with others. What the
    /// context stands for may be below them or not.
    ///
    /// Linear in the live clauses; of each longer one without an existential its elements are compared; and `n log n` in the atoms.
    pub fn open_names(&self, alloc: Global, index: &Index) -> Result<Vec<Atom>, Memory>
        ensures { IfOk result (λ names. (b : ℕ) → OneOf b names.items
            ↔ IsOpenName index.now.normal (live_of self.now) b) }
    {
        let clauses = self.store.clauses();
        let live = self.store.live();
        open_names(alloc, index.normal(), clauses, live)
    }

    /// Appends all that it owes to others, each once. Linear in the live clauses times the links, with a look-up each. After `Memory` some
    /// of it may be there.
    pub fn list_owed(&self, alloc: Global, index: &Index, out: &mut Vec<Note>) -> Result<(), Memory>
        ensures { ListsOwed index.now.normal (IsOk result) self.now out.old.items out.new.items }
    {
        let mut owed = Vec::new(alloc);
        let links = self.facts.links();
        owe_since(alloc, index, &self.key, &self.store, links, 0, &mut owed)?;
        append_distinct(alloc, owed, out)
    }
}

/// Fills a store without clauses with what the rules conclude for the key alone, no fact but `Start` being had, and appends what is owed.
///
/// The cost is that of `Context::begin`. After `Memory` nothing was appended.
fn close_first(
    alloc: Global,
    index: &Index,
    key: &Key,
    facts: &FactLists,
    store: &mut Store,
    out: &mut Vec<Note>,
) -> Result<(), Memory>
    requires reachable { Reachable index.now.normal key.now }
    requires told { facts.now ≡ record { links = []; backs = []; sures = []; deads = [] } }
    requires empty { store.old ≡ record { clauses = []; live = [] } }
    ensures context { OnOk result
        (IsContext index.now.normal (state_of key.now store.new facts.now)) }
    ensures closed { OnOk result
        (ClosedLocally index.now.normal (state_of key.now store.new facts.now)) }
    ensures sends { OnOk result
        (Sends index.now.normal (Unit {0}) (λ note. ⊥) (state_of key.now store.new facts.now)
        out.old.items out.new.items) }
    ensures err { OnErr result (out.new.items ≡ out.old.items) }
{
    let mut conclusions = Vec::new(alloc);
    on_key(alloc, index, key, &mut conclusions)?;
    close_since(alloc, index, key, facts, store, conclusions, out)
}

/// Adds the conclusions to a store that is closed but for them under these facts, closes it again, and appends what came to be owed by
/// the clauses that are new.
///
/// The cost is that of `close_with`, and linear in the clauses that are new, each time in the links where a clause has an atom of use.
/// After `Memory` nothing was appended.
fn close_since(
    alloc: Global,
    index: &Index,
    key: &Key,
    facts: &FactLists,
    store: &mut Store,
    conclusions: Vec<Clause>,
    out: &mut Vec<Note>,
) -> Result<(), Memory>
    requires closed { ClosedUpTo index.now.normal key.now (told_in facts.now) store.old.clauses
        store.old.live [] conclusions.items }
    requires in_turn { IsInTurn index.now.normal key.now (told_in facts.now) store.old.clauses }
    requires concluded { (d : List Elem) → OneOf d conclusions.items
        → ConcludesFrom index.now.normal key.now (λ c. OneOf c store.old.clauses)
        (told_in facts.now) d }
    ensures closed { OnOk result
        (ClosedUpTo index.now.normal key.now (told_in facts.now) store.new.clauses
        store.new.live [] []) }
    ensures in_turn { IsInTurn index.now.normal key.now (told_in facts.now) store.new.clauses }
    ensures continues { Continues store.old store.new }
    ensures sends { OnOk result (Sends index.now.normal (Unit {0})
        (Owes index.now.normal (state_of key.now (stored_before store.old store.new) facts.now))
        (state_of key.now store.new facts.now) out.old.items out.new.items) }
    ensures err { OnErr result (out.new.items ≡ out.old.items) }
{
    let stored = store.clauses().len();
    close_with(alloc, index, key, facts, store, conclusions)?;
    send_since(alloc, index, key, store, facts.links(), stored, out)
}
