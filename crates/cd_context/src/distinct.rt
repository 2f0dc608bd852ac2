//! Notes, each once.
ghost use Rattle.std.specs.Prelude.{◌++◌, map, IfOk, IsOk};
ghost use Rattle.std.specs.Cmp.Rules.{hashing};
ghost use Rattle.std.specs.Hash as fed;
ghost use Rattle.std.proofs.Common.{rules};
ghost use Rattle.cd_base.specs.Appends.{AppendsOnce};
ghost use Rattle.cd_base.specs.Lists.{OneOf};
ghost use Rattle.cd_context.specs.EachOnce.{HasEachOnce};
ghost use Rattle.cd_context.specs.FactWrites.{fact_writes};

use crate::facts::Note;
use cd_base::Memory;
use indexmap::IndexSet;
use std::alloc::Global;
use std::hash::{Hash, Hasher};

impl Hash for Note {
    ghost hash_input = { λ note. map (fed.le_bytes 8) note.key ++ fact_writes note.fact };

    ghost respects_eq = { Prim.search (hashing, rules) };

    fn hash<H: Hasher>(&self, state: &mut H) {
        self.key.hash(state);
        self.fact.hash(state);
    }
}

/// Appends the notes, each once, in the order in which they first stand. One look-up each. `Memory` leaves some of them behind.
pub(crate) fn append_distinct(
    alloc: Global,
    notes: Vec<Note>,
    out: &mut Vec<Note>,
) -> Result<(), Memory>
    ensures { AppendsOnce (λ note. OneOf note notes.items)
        (IsOk result) out.old.items out.new.items }
{
    let distinct = distinct_of(alloc, notes)?;
    'distinct: for note in distinct {
        out.push(note)?;
    }
    Ok(())
}

/// The notes, each once, in the order in which they first stand. One look-up each.
fn distinct_of(alloc: Global, notes: Vec<Note>) -> Result<IndexSet<Note>, Memory>
    ensures { IfOk result (λ distinct. HasEachOnce notes.items distinct.keys) }
{
    let mut distinct = IndexSet::new(alloc);
    distinct.extend(notes)?;
    Ok(distinct)
}
