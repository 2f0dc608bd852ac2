//! What contexts tell each other.
ghost use Rattle.std.specs.Cmp.Rules.{hashing};
ghost use Rattle.std.proofs.Common.{rules};
ghost use Rattle.cd_context.specs.FactWrites.{fact_writes};

use cd_base::{Atom, Key, Role};
use std::hash::{Hash, Hasher};

/// What one context is told of another.
#[derive(Debug, Drop, PartialEq, Eq)]
pub enum Fact {
    /// The context is that of a named class.
    Start,
    /// In the context of this key, some clause has an eligible existential of this role to this context.
    Link(Key, Role),
    /// This context has an existential of this role and key, in whose context some clause has this atom, eligible.
    Back(Role, Key, Atom),
    /// This context has an existential of this role and key, whose context has the clause of this atom alone.
    Sure(Role, Key, Atom),
    /// This context has an existential of this role and key, whose context has the empty clause.
    Dead(Role, Key),
}

/// A fact for the context of `key`.
#[derive(Debug, Drop, PartialEq, Eq)]
pub struct Note {
    pub key: Key,
    pub fact: Fact,
}

/// That the context of `key` has an existential of `role` to this one.
#[derive(Debug, Drop, PartialEq, Eq)]
pub struct LinkFact {
    pub key: Key,
    pub role: Role,
}

impl Hash for Fact {
    ghost hash_input = { fact_writes };

    ghost respects_eq = { Prim.search (hashing, rules) };

    fn hash<H: Hasher>(&self, state: &mut H) {
        match self {
            Fact::Start => state.write_u8(0),
            Fact::Link(key, role) => {
                state.write_u8(1);
                key.hash(state);
                role.0.hash(state);
            }
            Fact::Back(role, key, atom) => {
                state.write_u8(2);
                role.0.hash(state);
                key.hash(state);
                atom.0.hash(state);
            }
            Fact::Sure(role, key, atom) => {
                state.write_u8(3);
                role.0.hash(state);
                key.hash(state);
                atom.0.hash(state);
            }
            Fact::Dead(role, key) => {
                state.write_u8(4);
                role.0.hash(state);
                key.hash(state);
            }
        }
    }
}
