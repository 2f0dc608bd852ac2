//! The members of one group.
ghost use Rattle.std.specs.Prelude.{◌≡◌, ◌<◌, ◌==◌, not, ◌&&◌, ◌∷◌, length, map, filter, All, IfOk, slice_index, slice_index_or};
ghost use Rattle.cd_base.specs.declared.answer.Answer.TheVariants.{Unsatisfiable};
ghost use Rattle.cd_meaning.specs.Hierarchy.{classes_in_order, members};
ghost use Rattle.cd_taxonomy.specs.Relation.{relation, HasClassesBelow, IsSubsumption};
ghost use Rattle.cd_taxonomy.specs.Steps.{superclasses, superclass_counts, ArePlaces};

use cd_base::{Answer, Memory};
use cd_meaning::Document;
use std::alloc::Global;

/// The classes equivalent to `r`, which stands first; the others in the order of their names. `row` has the superclasses of `r`.
///
/// `n log n` in the row at most, and linear where the names stand in the order of their numbers.
pub(crate) fn members(
    alloc: Global,
    document: &Document,
    above: &[Answer],
    counts: &[u32],
    order: &[u32],
    places: &[u32],
    row: &[u32],
    r: u32,
) -> Result<Vec<u32>, Memory>
    requires class { r < length document.now.classes }
    requires answered { length above.now ≡ length document.now.classes }
    requires within { All (HasClassesBelow (length document.now.classes)) above.now }
    requires subsumption { IsSubsumption (length document.now.classes) (relation above.now) }
    requires counted { counts.now ≡ superclass_counts above.now }
    requires ordered { order.now ≡ classes_in_order document.now.classes }
    requires placed { ArePlaces (length document.now.classes) order.now places.now }
    requires row { row.now ≡ superclasses (length document.now.classes)
        (slice_index_or above.now r Unsatisfiable) }
    ensures { IfOk result (λ found. found.items
        ≡ members document.now.classes (relation above.now) r) }
{
    let mut found = other_places(alloc, counts, places, row, r)?;
    found.sort_unstable();
    listed(alloc, order, r, &found)
}

/// The places of the classes of `row` other than `r` that have as many superclasses as `r`. Linear in the row.
fn other_places(
    alloc: Global,
    counts: &[u32],
    places: &[u32],
    row: &[u32],
    r: u32,
) -> Result<Vec<u32>, Memory>
    requires class { r < length counts.now }
    requires counted { All (λ c. c < length counts.now) row.now }
    requires placed { All (λ c. c < length places.now) row.now }
    ensures { IfOk result (λ found. found.items ≡ map (slice_index places.now)
        (filter (λ c. not (c == r) && slice_index counts.now c
        == slice_index counts.now r) row.now)) }
{
    let count = counts[r as usize];
    let mut found = Vec::new(alloc);
    for c in row {
        if *c != r && counts[*c as usize] == count {
            found.push(places[*c as usize])?;
        }
    }
    Ok(found)
}

/// The class `first`, and then those at these places. Linear in the places.
fn listed(alloc: Global, order: &[u32], first: u32, places: &[u32]) -> Result<Vec<u32>, Memory>
    requires { All (λ k. k < length order.now) places.now }
    ensures { IfOk result (λ found. found.items ≡ first ∷ map (slice_index order.now) places.now) }
{
    let mut found = Vec::with_capacity(alloc, places.len() + 1)?;
    found.push(first)?;
    for k in places {
        found.push(order[*k as usize])?;
    }
    Ok(found)
}
