//! The stored clauses that were not taken up as premises yet.
ghost use Rattle.std.specs.Prelude.{◌≡◌, ◌∷◌, [], true, MatchOption, OnOk, IsPermutation};
ghost use Rattle.cd_base.specs.Lists.{OneOf};
ghost use Rattle.cd_context.specs.TakeUp.{IsPutInto};
ghost use Rattle.cd_context.specs.Waits.{numbers, IsLeastTaken};

use cd_base::Memory;
use std::alloc::Global;
use std::cmp::Reverse;
use std::collections::{BinaryHeap, HashSet};
use std::marker::Model;

/// Clauses that wait, by their number and how many elements they have. Contracts see these pairs in no order that they speak of.
///
/// The set of the numbers is there for look-ups.
#[derive(Debug, Drop)]
pub struct Waiting {
    heap: BinaryHeap<Reverse<(usize, usize)>>,
    numbers: HashSet<usize>,
}

impl Model for Waiting {
    ghost use Rattle.std.specs.Prelude.{ℕ, List, map};
    ghost use Rattle.std.specs.BinaryHeap.{heap_items, IsHeap};
    ghost use Rattle.std.specs.Ordering.{nat_cmp, ordering_then};
    ghost use Rattle.cd_context.specs.Waits.{AreAmong};

    ghost Value = { List (ℕ × ℕ) };

    ghost view = { λ w. map (λ r. r.0) (heap_items w.heap) };

    ghost invariant = { λ w. IsHeap
        (λ x y. ordering_then (nat_cmp y.0.0 x.0.0) (nat_cmp y.0.1 x.0.1)) (heap_items w.heap)
        × AreAmong w.numbers (map (λ r. r.0) (heap_items w.heap)) };
}

impl Waiting {
    /// None waits. Takes no memory and constant time.
    pub fn new(alloc: Global) -> Waiting
        ensures { result ≡ [] }
    {
        Waiting {
            heap: BinaryHeap::new(alloc),
            numbers: HashSet::new(alloc),
        }
    }

    /// One more waits, the number of a clause with so many elements. Logarithmic in those that wait. After `Memory` it waits or not.
    pub fn put(&mut self, elements: usize, number: usize) -> Result<(), Memory>
        ensures ok { OnOk result (IsPutInto number (numbers self.old) (numbers self.new)) }
        ensures pairs { OnOk result (IsPermutation ((elements, number) ∷ self.old) self.new) }
    {
        self.heap.push(Reverse((elements, number)))?;
        self.numbers.insert(number)?;
        Ok(())
    }

    /// Whether the number waits: true only where it does. One look-up.
    pub fn has(&self, number: usize) -> bool
        ensures { result ≡ true → OneOf number (numbers self.now) }
    {
        self.numbers.contains(&number)
    }

    /// The number of a shortest clause that waits, the oldest of these, which waits no more. `None` exactly where none waits. Logarithmic
    /// in those that wait.
    pub fn take(&mut self) -> Option<usize>
        ensures { MatchOption result (self.old ≡ []) (λ n. IsLeastTaken n self.old self.new) }
    {
        let Some(least) = self.heap.pop() else {
            return None;
        };
        let number = least.0.1;
        self.numbers.remove(&number);
        Some(number)
    }
}
