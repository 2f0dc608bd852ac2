//! The two sums over cells.
ghost use Rattle.std.specs.Prelude.{◌≡◌};
ghost use Rattle.cd_actor.specs.Cells.{total};

use crate::actor::Actor;

/// How many contexts the cells have. More than the last `u64` stand at it. Linear in the cells.
pub fn sum_contexts<A: Actor>(cells: &[A]) -> u64
    ensures { result ≡ total A.meaning.contexts cells.now }
{
    let mut sum: u64 = 0;
    for cell in cells {
        sum = sum.saturating_add(cell.contexts());
    }
    sum
}

/// How many facts the cells have. More than the last `u64` stand at it. Linear in the cells.
pub fn sum_facts<A: Actor>(cells: &[A]) -> u64
    ensures { result ≡ total A.meaning.facts cells.now }
{
    let mut sum: u64 = 0;
    for cell in cells {
        sum = sum.saturating_add(cell.facts());
    }
    sum
}
