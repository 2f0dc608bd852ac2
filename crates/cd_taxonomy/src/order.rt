//! The classes in the order of their names' bytes, and where each one stands in such a list.
ghost use Rattle.std.specs.Prelude.{◌≡◌, ◌≢◌, ◌<◌, ◌≤◌, ◌^◌, length, All, AllPairs, IfOk};
ghost use Rattle.std.specs.Cmp.Lexicographic.{slice_cmp};
ghost use Rattle.std.specs.List.{range_with_len};
ghost use Rattle.std.specs.Ordering.{nat_cmp};
ghost use Rattle.cd_meaning.specs.Hierarchy.{name_of, classes_in_order};
ghost use Rattle.cd_taxonomy.specs.Steps.{IsOrdering, ArePlaces};

use cd_base::{Memory, Seq};
use std::alloc::Global;
use std::cmp::Ordering;

/// The numbers of the names in the order of their bytes. `n log n` comparisons of names.
pub(crate) fn classes_in_order(alloc: Global, names: &[Seq<u8>]) -> Result<Vec<u32>, Memory>
    requires few { length names.now < 2 ^ 32 }
    requires distinct { AllPairs (λ a b. a ≢ b) names.now }
    ensures order { IfOk result (λ order. order.items ≡ classes_in_order names.now) }
    ensures ordering { IfOk result (λ order. IsOrdering order.items) }
    ensures long { IfOk result (λ order. length order.items ≡ length names.now) }
{
    let mut order = numbers_below(alloc, names.len() as u32)?;
    order.sort_unstable_by(|c, d| compare(names, *c, *d));
    Ok(order)
}

/// Where each number of a list stands in it, for the numbers below `n`; 0 for those that do not. Linear.
pub(crate) fn places(alloc: Global, n: usize, xs: &[u32]) -> Result<Vec<u32>, Memory>
    requires few { n < 2 ^ 32 }
    requires short { length xs.now ≤ n }
    requires within { All (λ c. c < n) xs.now }
    requires distinct { AllPairs (λ c d. c ≢ d) xs.now }
    ensures { IfOk result (λ places. ArePlaces n xs.now places.items) }
{
    let mut places = vec![in alloc; 0u32; n]?;
    for (k, x) in xs.iter().enumerate() {
        places[*x as usize] = k as u32;
    }
    Ok(places)
}

/// The numbers below `n`, ascending. Linear.
pub(crate) fn numbers_below(alloc: Global, n: u32) -> Result<Vec<u32>, Memory>
    ensures { IfOk result (λ found. found.items ≡ range_with_len 0 n) }
{
    Ok((0..n).collect(alloc)?)
}

/// How the names of two classes compare by their bytes. Linear in the shorter name at most.
fn compare(names: &[Seq<u8>], c: u32, d: u32) -> Ordering
    ensures { result ≡ slice_cmp nat_cmp (name_of names.now c) (name_of names.now d) }
{
    name_of(names, c).cmp(name_of(names, d))
}

/// The bytes of a name by its number, and none where no name has that number. Constant time.
fn name_of(names: &[Seq<u8>], c: u32) -> &[u8]
    ensures { result.now ≡ name_of names.now c }
{
    match names.get(c as usize) {
        Some(name) => name.items(),
        None => &[],
    }
}
