//! The direct superclasses of one group.
ghost use Rattle.std.specs.Prelude.{◌≡◌, ◌<◌, ◌≤◌, ℕ, ◌==◌, ◌||◌, length, map, filter, All, AllPairs, IfOk, OnOk, nat_eq, slice_index, slice_index_or};
ghost use Rattle.std.specs.HashSet.{contains};
ghost use Rattle.std.specs.List.{list_any};
ghost use Rattle.std.specs.List.Sorted.{IsPermutation};
ghost use Rattle.cd_base.specs.declared.answer.Answer.TheVariants.{Unsatisfiable};
ghost use Rattle.cd_meaning.specs.Hierarchy.{parents, representatives};
ghost use Rattle.cd_taxonomy.specs.Covered.{is_candidate, with_count, class_of, lists, covers, uncovered};
ghost use Rattle.cd_taxonomy.specs.Groups.{group_number};
ghost use Rattle.cd_taxonomy.specs.Relation.{relation, HasClassesBelow, IsSubsumption};
ghost use Rattle.cd_taxonomy.specs.Steps.{superclasses, superclass_counts, representative_list, ArePlaces};

use cd_base::{Answer, Atom, Memory};
use cd_meaning::Document;
use std::alloc::Global;
use std::collections::HashSet;

/// The numbers of the groups that are direct superclasses of the group of the representative `r`, ascending. `row` has the
/// superclasses of `r`, `representative_of` the representative of each class, and `numbers` the number of each representative's group.
///
/// The groups above `r` are gone through from those with most superclasses on. One that is not above an earlier one is a direct
/// superclass. So this takes `n log n` in the row, and linear time in the answers of the direct superclasses.
pub(crate) fn parents(
    alloc: Global,
    document: &Document,
    above: &[Answer],
    counts: &[u32],
    representative_of: &[u32],
    numbers: &[u32],
    row: &[u32],
    r: u32,
) -> Result<Vec<u32>, Memory>
    requires class { r < length document.now.classes }
    requires answered { length above.now ≡ length document.now.classes }
    requires within { All (HasClassesBelow (length document.now.classes)) above.now }
    requires subsumption { IsSubsumption (length document.now.classes) (relation above.now) }
    requires counted { counts.now ≡ superclass_counts above.now }
    requires represented { representative_of.now
        ≡ representative_list document.now.classes above.now }
    requires numbered { ArePlaces (length document.now.classes)
        (representatives document.now.classes (relation above.now)) numbers.now }
    requires row { row.now ≡ superclasses (length document.now.classes)
        (slice_index_or above.now r Unsatisfiable) }
    ensures { IfOk result (λ found. found.items
        ≡ map (group_number (representatives document.now.classes (relation above.now)))
        (parents document.now.classes (relation above.now) r)) }
{
    let mut candidates = candidates(alloc, counts, representative_of, row, r)?;
    // A class strictly between `r` and a candidate has more superclasses than the candidate.
    sort_by_superclasses(&mut candidates);
    let direct = uncovered(alloc, above, &candidates)?;
    let mut found = numbers_of(alloc, numbers, &direct)?;
    found.sort_unstable();
    Ok(found)
}

/// A class, with how many classes are above it.
#[derive(Clone, Copy)]
struct Candidate {
    class: u32,
    superclasses: u32,
}

/// The classes of the row that stand for groups other than that of `r`. Linear in the row.
fn candidates(
    alloc: Global,
    counts: &[u32],
    representative_of: &[u32],
    row: &[u32],
    r: u32,
) -> Result<Vec<Candidate>, Memory>
    requires class { r < length counts.now }
    requires counted { All (λ d. d < length counts.now) row.now }
    requires represented { All (λ d. d < length representative_of.now) row.now }
    ensures { IfOk result (λ found. found.items
        ≡ map (with_count counts.now)
        (filter (is_candidate representative_of.now counts.now r) row.now)) }
{
    let own = counts[r as usize];
    let mut found = Vec::new(alloc);
    for d in row {
        let superclasses = counts[*d as usize];
        if representative_of[*d as usize] == *d && superclasses != own {
            found.push(Candidate {
                class: *d,
                superclasses,
            })?;
        }
    }
    Ok(found)
}

/// Those with most superclasses come first. `n log n`.
fn sort_by_superclasses(candidates: &mut Vec<Candidate>)
    ensures same { IsPermutation candidates.old.items candidates.new.items }
    ensures sorted { AllPairs (λ c d. d.superclasses ≤ c.superclasses) candidates.new.items }
{
    candidates.sort_unstable_by(|c, d| d.superclasses.cmp(&c.superclasses));
}

/// The classes of the candidates that the answer of no earlier one returned lists. Linear in the candidates and in the answers of
/// those returned.
fn uncovered(alloc: Global, above: &[Answer], candidates: &[Candidate]) -> Result<Vec<u32>, Memory>
    requires { All (λ candidate. candidate.class < length above.now) candidates.now }
    ensures { IfOk result (λ found. found.items
        ≡ uncovered (covers above.now) (map class_of candidates.now)) }
{
    let mut covered = HashSet::new(alloc);
    let mut found = Vec::new(alloc);
    for candidate in candidates {
        if !covered.contains(&candidate.class) {
            found.push(candidate.class)?;
            cover(&mut covered, &above[candidate.class as usize])?;
        }
    }
    Ok(found)
}

/// Adds the classes of an answer. Linear in the answer.
fn cover(covered: &mut HashSet<u32>, answer: &Answer) -> Result<(), Memory>
    ensures { OnOk result ((b : ℕ)
        → contains nat_eq covered.new b ≡ (contains nat_eq covered.old b || lists answer.now b)) }
{
    match answer {
        Answer::Unsatisfiable => Ok(()),
        Answer::Of(atoms) => cover_each(covered, atoms.items()),
    }
}

/// Adds the classes of the atoms. Linear.
fn cover_each(covered: &mut HashSet<u32>, atoms: &[Atom]) -> Result<(), Memory>
    ensures { OnOk result ((b : ℕ)
        → contains nat_eq covered.new b
        ≡ (contains nat_eq covered.old b || list_any (λ (atom : ℕ). atom == b) atoms.now)) }
{
    for atom in atoms {
        covered.insert(atom.number())?;
    }
    Ok(())
}

/// The number of each class. Linear.
fn numbers_of(alloc: Global, numbers: &[u32], classes: &[u32]) -> Result<Vec<u32>, Memory>
    requires { All (λ d. d < length numbers.now) classes.now }
    ensures { IfOk result (λ found. found.items ≡ map (slice_index numbers.now) classes.now) }
{
    let mut found = Vec::new(alloc);
    for d in classes {
        found.push(numbers[*d as usize])?;
    }
    Ok(found)
}
