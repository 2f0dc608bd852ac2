//! Laws of contexts, each on the contract of a function that does nothing.
ghost use Rattle.cd_context.specs.Justified.{StoredDerived, OwedJustified};

/// Whatever a context stores is derived for its key.
pub fn stored_is_derived()
    ensures { StoredDerived }
{}

/// Whatever a closed context owes goes to a key that can be reached, and is justified in its context.
pub fn owed_is_justified()
    ensures { OwedJustified }
{}
