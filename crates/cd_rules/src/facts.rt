//! What a context is told by the contexts of its existentials.
use cd_base::{Atom, Key, Role};

/// In the context of `key`, to which this context has an existential of `role`, some clause has `atom`, eligible.
#[derive(Debug, Drop, PartialEq, Eq)]
pub struct BackFact {
    pub role: Role,
    pub key: Key,
    pub atom: Atom,
}

/// The context of `key`, to which this context has an existential of `role`, has the clause of `atom` alone.
#[derive(Debug, Drop, PartialEq, Eq)]
pub struct SureFact {
    pub role: Role,
    pub key: Key,
    pub atom: Atom,
}

/// The context of `key`, to which this context has an existential of `role`, has the empty clause.
#[derive(Debug, Drop, PartialEq, Eq)]
pub struct DeadFact {
    pub role: Role,
    pub key: Key,
}
