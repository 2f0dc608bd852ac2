//! The rule Ex.
ghost use Rattle.std.specs.Prelude.{IsOk};
ghost use Rattle.cd_base.specs.Appends.{Appends};
ghost use Rattle.cd_rules.specs.Among.{Among};
ghost use Rattle.cd_rules.specs.Parts.{IsExBy};
ghost use Rattle.cd_rules.specs.Steps.{IsEx};

use crate::look_ups::gives;
use cd_base::{Atom, Key, Memory, Triple};
use cd_clause::{Clause, Elem};
use cd_index::Index;
use std::alloc::Global;

/// ```text
/// N + A     every A has an R-edge to a B
/// --------------------------------------
///             N + some R.{B}
/// ```
///
/// `others` is N. Linear in the axioms for A, each time in `others`.
pub(crate) fn ex(
    alloc: Global,
    index: &Index,
    atom: Atom,
    others: &Clause,
    out: &mut Vec<Clause>,
) -> Result<(), Memory>
    ensures { Appends Among (IsEx index.now.normal atom others.now)
        (IsOk result) out.old.items out.new.items }
{
    let mut rest = gives(index, atom);
    'axioms: while let [edge, later @ ..] = rest {
        push_edge(alloc, edge, others, out)?;
        rest = later;
    }
    Ok(())
}

/// The conclusion by one axiom for A. Linear in `others`.
fn push_edge(
    alloc: Global,
    edge: &Triple,
    others: &Clause,
    out: &mut Vec<Clause>,
) -> Result<(), Memory>
    ensures { Appends Among (IsExBy edge.now others.now) (IsOk result) out.old.items out.new.items }
{
    let key = Key::single(alloc, edge.other);
    out.push(others.with(Elem::Exist(edge.role, key))?)?;
    Ok(())
}
