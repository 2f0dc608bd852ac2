//! What a context says of its class.
ghost use Rattle.std.specs.Prelude.{◌≡◌, ◌↔◌, ℕ, true, filter, IfOk};
ghost use Rattle.cd_base.specs.Keys.{is_named};
ghost use Rattle.cd_base.specs.Lists.{OneOf};
ghost use Rattle.cd_clause.specs.Derivations.{IsSingle};
ghost use Rattle.cd_cell.specs.Subsumers.{IsReadingOf};
ghost use Rattle.cd_context.specs.State.{live_of};

use cd_base::{Atom, Memory, Normal, Seq};
use cd_context::Context;
use cd_index::Index;
use std::alloc::Global;

/// What the clauses of a class's context tell of its superclasses.
#[derive(Debug, Drop)]
pub enum Reading {
    /// The class can have no member.
    Unsatisfiable,
    /// The class is below the first, which ascend. Whether it is below the second is left open, and it is below no others.
    Of(Seq<Atom>, Seq<Atom>),
}

/// What the live clauses of the context tell. Linear in them, and `n log n` in the names; of each longer one without an existential its
/// elements are compared.
pub(crate) fn reading_of(alloc: Global, index: &Index, context: &Context) -> Result<Reading, Memory>
    ensures { IfOk result
        (λ reading. IsReadingOf index.now.normal (live_of context.now) reading) }
{
    if context.has_empty() {
        return Ok(Reading::Unsatisfiable);
    }
    let above = named_singles(alloc, index.normal(), context)?;
    let open = context.open_names(alloc, index)?;
    Ok(Reading::Of(above, Seq::of(open)))
}

/// The classes of the document whose clause alone is live, ascending. Linear in the live clauses, and `n log n` in the atoms.
fn named_singles(alloc: Global, normal: &Normal, context: &Context) -> Result<Seq<Atom>, Memory>
    ensures { IfOk result (λ above. (b : ℕ) → OneOf b above
        ↔ ((is_named normal.now b ≡ true) × IsSingle (live_of context.now) b)) }
{
    let singles = context.singles(alloc)?;
    let named = named_among(alloc, normal, &singles);
    drop(singles);
    Ok(Seq::of(named?))
}

/// Those of the atoms that are classes of the document, in their order. Linear in the atoms.
fn named_among(alloc: Global, normal: &Normal, atoms: &[Atom]) -> Result<Vec<Atom>, Memory>
    ensures { IfOk result (λ named. named.items ≡ filter (is_named normal.now) atoms.now) }
{
    let mut named = Vec::new(alloc);
    for atom in atoms {
        if normal.is_named(*atom) {
            named.push(*atom)?;
        }
    }
    Ok(named)
}
