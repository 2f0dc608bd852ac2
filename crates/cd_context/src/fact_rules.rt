//! What a new back, sure or dead gives with the live clauses.
//!
//! A context may have thousands of live clauses, and as many facts. A fact is of use to those clauses alone that have its existential, which
//! the store finds.
ghost use Rattle.std.specs.Prelude.{◌≡◌, ◌↔◌, ℕ, List, IfOk, IsOk};
ghost use Rattle.cd_base.specs.Lists.{OneOf};
ghost use Rattle.cd_clause.specs.declared.elem.Elem.TheVariants.{Exist};
ghost use Rattle.cd_base.specs.Appends.{Appends};
ghost use Rattle.cd_rules.specs.Among.{Among};
ghost use Rattle.cd_rules.specs.Uses.{FromBack, FromSure, FromDead};
ghost use Rattle.cd_store.specs.LookUps.{HasElem};

use cd_base::{Key, Memory, Role};
use cd_clause::Clause;
use cd_index::Index;
use cd_rules::{BackFact, DeadFact, SureFact, on_back, on_dead, on_sure};
use cd_store::Store;
use std::alloc::Global;

/// Appends every conclusion that uses the back, with the live clauses, and no other.
///
/// Linear in the clauses that have its existential, dead ones too, and logarithmic in the live ones for each. `Memory` leaves such
/// conclusions alone behind.
pub(crate) fn conclude_back(
    alloc: Global,
    index: &Index,
    store: &Store,
    back: &BackFact,
    out: &mut Vec<Clause>,
) -> Result<(), Memory>
    ensures { (key : List ℕ) → Appends Among
        (FromBack index.now.normal key store.now.clauses store.now.live back.now)
        (IsOk result) out.old.items out.new.items }
{
    let numbers = live_with(alloc, store, back.role, &back.key)?;
    let done = on_back(index, store.clauses(), numbers.as_slice(), back, out);
    drop(numbers);
    done
}

/// Appends every conclusion that uses the sure, with the live clauses, and no other. The cost, and `Memory`, are as for `conclude_back`.
pub(crate) fn conclude_sure(
    alloc: Global,
    index: &Index,
    store: &Store,
    sure: &SureFact,
    out: &mut Vec<Clause>,
) -> Result<(), Memory>
    ensures { (key : List ℕ) → Appends Among
        (FromSure index.now.normal key store.now.clauses store.now.live sure.now)
        (IsOk result) out.old.items out.new.items }
{
    let numbers = live_with(alloc, store, sure.role, &sure.key)?;
    let done = on_sure(index, store.clauses(), numbers.as_slice(), sure, out);
    drop(numbers);
    done
}

/// Appends every conclusion that uses the dead, with the live clauses, and no other. The cost, and `Memory`, are as for `conclude_back`.
pub(crate) fn conclude_dead(
    alloc: Global,
    index: &Index,
    store: &Store,
    dead: &DeadFact,
    out: &mut Vec<Clause>,
) -> Result<(), Memory>
    ensures { (key : List ℕ) → Appends Among
        (FromDead index.now.normal key store.now.clauses store.now.live dead.now)
        (IsOk result) out.old.items out.new.items }
{
    let numbers = live_with(alloc, store, dead.role, &dead.key)?;
    let done = on_dead(index, store.clauses(), numbers.as_slice(), dead, out);
    drop(numbers);
    done
}

/// Numbers of live clauses, among them each that has this existential.
fn live_with(alloc: Global, store: &Store, role: Role, key: &Key) -> Result<Vec<usize>, Memory>
    ensures live { IfOk result (λ numbers. (k : ℕ) → OneOf k numbers.items
        → OneOf k store.now.live) }
    ensures every { IfOk result (λ numbers. (k : ℕ) → OneOf k store.now.live
        → HasElem store.now.clauses (Exist role key.now) k → OneOf k numbers.items) }
{
    let mut found = Vec::new(alloc);
    store.push_with_existential(role, key, &mut found)?;
    let numbers = live_among(alloc, found.as_slice(), store)?;
    Ok(numbers)
}

/// The live ones of these numbers. Logarithmic in the live clauses for each.
fn live_among(alloc: Global, candidates: &[usize], store: &Store) -> Result<Vec<usize>, Memory>
    ensures { IfOk result (λ numbers. (k : ℕ) → OneOf k numbers.items
        ↔ (OneOf k candidates.now × OneOf k store.now.live)) }
{
    let mut numbers = Vec::new(alloc);
    'candidates: for i in 0..candidates.len() {
        let number = candidates[i];
        if store.is_live(number) {
            numbers.push(number)?;
        }
    }
    Ok(numbers)
}
