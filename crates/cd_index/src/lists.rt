//! Lists by number.
ghost use Rattle.std.specs.Prelude.{[], ◌≡◌, IfOk};
ghost use Rattle.cd_index.specs.Lists.{AreLists};

use cd_base::{Memory, Seq};
use std::alloc::Global;

/// So many empty lists. Linear in their number.
pub(crate) fn empty_lists<T: Drop>(alloc: Global, number: usize) -> Result<Vec<Seq<T>>, Memory>
    ensures { IfOk result (λ lists. AreLists number lists.items (λ _. [])) }
{
    let mut lists = Vec::new(alloc);
    for _ in 0..number {
        lists.push(Seq::of(Vec::new(alloc)))?;
    }
    Ok(lists)
}
