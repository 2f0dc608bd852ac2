//! Which class stands for the group of each class.
ghost use Rattle.std.specs.Prelude.{ℕ, ◌≡◌, ◌<◌, ◌≤◌, ◌∷◌, length, All, Contains, IfOk, slice_index};
ghost use Rattle.cd_meaning.specs.Hierarchy.{classes_in_order, representative, representatives};
ghost use Rattle.cd_taxonomy.specs.Relation.{relation, HasClassesBelow, IsSubsumption};
ghost use Rattle.cd_taxonomy.specs.Steps.{superclass_counts, representative_list, ArePlaces};

use cd_base::{Answer, Atom, Memory};
use cd_meaning::{Document, NOTHING, THING};
use std::alloc::Global;

/// The representative of each class, from the numbers of its superclasses and the places of all classes by their names.
///
/// Linear in the sum of the answers' lengths.
pub(crate) fn representative_list(
    alloc: Global,
    document: &Document,
    above: &[Answer],
    counts: &[u32],
    places: &[u32],
) -> Result<Vec<u32>, Memory>
    requires answered { length above.now ≡ length document.now.classes }
    requires within { All (HasClassesBelow (length document.now.classes)) above.now }
    requires subsumption { IsSubsumption (length document.now.classes) (relation above.now) }
    requires counted { counts.now ≡ superclass_counts above.now }
    requires placed { ArePlaces (length document.now.classes)
        (classes_in_order document.now.classes) places.now }
    ensures { IfOk result (λ found. found.items
        ≡ representative_list document.now.classes above.now) }
{
    let n = above.len() as u32;
    let mut found = Vec::with_capacity(alloc, above.len())?;
    for c in 0..n {
        found.push(representative(document, above, counts, places, c))?;
    }
    Ok(found)
}

/// The representative of the class `c`. Linear in its answer.
fn representative(
    document: &Document,
    above: &[Answer],
    counts: &[u32],
    places: &[u32],
    c: u32,
) -> u32
    requires class { c < length document.now.classes }
    requires answered { length above.now ≡ length document.now.classes }
    requires within { All (HasClassesBelow (length document.now.classes)) above.now }
    requires subsumption { IsSubsumption (length document.now.classes) (relation above.now) }
    requires counted { counts.now ≡ superclass_counts above.now }
    requires placed { ArePlaces (length document.now.classes)
        (classes_in_order document.now.classes) places.now }
    ensures { result ≡ representative document.now.classes (relation above.now) c }
{
    let Answer::Of(atoms) = &above[c as usize] else {
        return NOTHING;
    };
    // An answer may also list all classes, owl:Nothing with them.
    let count = counts[c as usize];
    if count == counts[NOTHING as usize] {
        return NOTHING;
    }
    if count == counts[THING as usize] {
        return THING;
    }
    first_with_count(atoms.items(), counts, places, c)
}

/// Of `c` and of the atoms that have as many superclasses, the one with the least place. Linear in the atoms.
fn first_with_count(atoms: &[Atom], counts: &[u32], places: &[u32], c: u32) -> u32
    requires class { c < length counts.now }
    requires within { All (λ (atom : ℕ). atom < length counts.now) atoms.now }
    requires placed { length places.now ≡ length counts.now }
    ensures counted { slice_index counts.now result ≡ slice_index counts.now c }
    ensures listed { Contains (c ∷ atoms.now) result }
    ensures first { All (λ (atom : ℕ). slice_index counts.now atom ≡ slice_index counts.now c
        → slice_index places.now result ≤ slice_index places.now atom) atoms.now }
{
    let count = counts[c as usize];
    let mut first = c;
    for atom in atoms {
        let number = atom.number();
        if counts[number as usize] == count && places[number as usize] < places[first as usize] {
            first = number;
        }
    }
    first
}

/// One class of each group, in the order of their names. Linear in the classes.
pub(crate) fn representatives(
    alloc: Global,
    document: &Document,
    above: &[Answer],
    order: &[u32],
    representative_of: &[u32],
) -> Result<Vec<u32>, Memory>
    requires ordered { order.now ≡ classes_in_order document.now.classes }
    requires represented { representative_of.now
        ≡ representative_list document.now.classes above.now }
    ensures { IfOk result (λ found. found.items
        ≡ representatives document.now.classes (relation above.now)) }
{
    let mut found = Vec::new(alloc);
    for c in order {
        if representative_of[*c as usize] == *c {
            found.push(*c)?;
        }
    }
    Ok(found)
}
