//! The facts that a context was told.
ghost use Rattle.std.specs.Prelude.{◌≡◌, ◌∷◌, ◌++◌, [], ℕ, List, OnOk, OnErr};
ghost use Rattle.cd_clause.specs.declared.elem.Elem.{Elem};
ghost use Rattle.cd_context.specs.Facts.{has_fact};

use crate::facts::{Fact, LinkFact};
use cd_base::Memory;
use cd_rules::{BackFact, DeadFact, SureFact};
use indexmap::IndexSet;
use std::alloc::Global;
use std::marker::Model;

/// A list of each kind of facts, in the order in which they came.
///
/// The set of all of them is there for look-ups. So each fact is kept twice with its key, and one whose key has more than four literals
/// takes memory of its own twice.
#[derive(Debug, Drop)]
pub(crate) struct FactLists {
    all: IndexSet<Fact>,
    links: Vec<LinkFact>,
    backs: Vec<BackFact>,
    sures: Vec<SureFact>,
    deads: Vec<DeadFact>,
}

impl Model for FactLists {
    ghost use Rattle.cd_context.specs.FactLists.{ByKind, Ties};

    ghost Value = { ByKind };

    ghost view = { λ l. record {
      links = l.links.items;
      backs = l.backs.items;
      sures = l.sures.items;
      deads = l.deads.items;
    } };

    ghost invariant = { λ l. Ties l.all.keys
        (record {
          links = l.links.items;
          backs = l.backs.items;
          sures = l.sures.items;
          deads = l.deads.items;
        }) };
}

impl FactLists {
    /// No facts. Takes no memory and constant time.
    pub(crate) fn new(alloc: Global) -> FactLists
        ensures { result ≡ record { links = []; backs = []; sures = []; deads = [] } }
    {
        FactLists {
            all: IndexSet::new(alloc),
            links: Vec::new(alloc),
            backs: Vec::new(alloc),
            sures: Vec::new(alloc),
            deads: Vec::new(alloc),
        }
    }

    /// The links, lent. Constant time.
    pub(crate) fn links(&self) -> &[LinkFact]
        ensures { result.now ≡ self.now.links }
    {
        self.links.as_slice()
    }

    /// The backs, lent. Constant time.
    pub(crate) fn backs(&self) -> &[BackFact]
        ensures { result.now ≡ self.now.backs }
    {
        self.backs.as_slice()
    }

    /// The sures, lent. Constant time.
    pub(crate) fn sures(&self) -> &[SureFact]
        ensures { result.now ≡ self.now.sures }
    {
        self.sures.as_slice()
    }

    /// The deads, lent. Constant time.
    pub(crate) fn deads(&self) -> &[DeadFact]
        ensures { result.now ≡ self.now.deads }
    {
        self.deads.as_slice()
    }

    /// Whether a context with these facts has the fact. Every context has `Start`. One look-up.
    pub(crate) fn has(&self, fact: &Fact) -> bool
        ensures { (key : List ℕ) (clauses : List (List Elem)) (live : List ℕ)
            → result ≡ has_fact (record {
              key = key;
              clauses = clauses;
              live = live;
              links = self.now.links;
              backs = self.now.backs;
              sures = self.now.sures;
              deads = self.now.deads;
            }) fact.now }
    {
        match fact {
            Fact::Start => true,
            _ => self.all.contains(fact),
        }
    }

    /// Puts the link at the end of the links. One look-up, and linear in the literals of the key.
    pub(crate) fn add_link(&mut self, link: LinkFact) -> Result<(), Memory>
        ensures ok { OnOk result (self.new
            ≡ record {
              links = self.old.links ++ link ∷ [];
              backs = self.old.backs;
              sures = self.old.sures;
              deads = self.old.deads;
            }) }
        ensures err { OnErr result (self.new ≡ self.old) }
    {
        let fact = Fact::Link(link.key.copy()?, link.role);
        self.links.reserve(1)?;
        self.all.insert(fact)?;
        self.links.push_reserved(link);
        Ok(())
    }

    /// Puts the back at the end of the backs. One look-up, and linear in the literals of the key.
    pub(crate) fn add_back(&mut self, back: BackFact) -> Result<(), Memory>
        ensures ok { OnOk result (self.new
            ≡ record {
              links = self.old.links;
              backs = self.old.backs ++ back ∷ [];
              sures = self.old.sures;
              deads = self.old.deads;
            }) }
        ensures err { OnErr result (self.new ≡ self.old) }
    {
        let fact = Fact::Back(back.role, back.key.copy()?, back.atom);
        self.backs.reserve(1)?;
        self.all.insert(fact)?;
        self.backs.push_reserved(back);
        Ok(())
    }

    /// Puts the sure at the end of the sures. One look-up, and linear in the literals of the key.
    pub(crate) fn add_sure(&mut self, sure: SureFact) -> Result<(), Memory>
        ensures ok { OnOk result (self.new
            ≡ record {
              links = self.old.links;
              backs = self.old.backs;
              sures = self.old.sures ++ sure ∷ [];
              deads = self.old.deads;
            }) }
        ensures err { OnErr result (self.new ≡ self.old) }
    {
        let fact = Fact::Sure(sure.role, sure.key.copy()?, sure.atom);
        self.sures.reserve(1)?;
        self.all.insert(fact)?;
        self.sures.push_reserved(sure);
        Ok(())
    }

    /// Puts the dead at the end of the deads. One look-up, and linear in the literals of the key.
    pub(crate) fn add_dead(&mut self, dead: DeadFact) -> Result<(), Memory>
        ensures ok { OnOk result (self.new
            ≡ record {
              links = self.old.links;
              backs = self.old.backs;
              sures = self.old.sures;
              deads = self.old.deads ++ dead ∷ [];
            }) }
        ensures err { OnErr result (self.new ≡ self.old) }
    {
        let fact = Fact::Dead(dead.role, dead.key.copy()?);
        self.deads.reserve(1)?;
        self.all.insert(fact)?;
        self.deads.push_reserved(dead);
        Ok(())
    }
}
