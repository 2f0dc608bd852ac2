//! Which roles are under which.
ghost use Rattle.std.specs.Prelude.{◌≡◌, ◌==◌, ◌<◌, IsTrue, length, IfOk};
ghost use Rattle.std.specs.List.{list_all, list_any};
ghost use Rattle.std.specs.List.Sorted.{IsNonDecreasing};
ghost use Rattle.cd_base.specs.Normal.{has_roles_below};
ghost use Rattle.cd_index.specs.Closure.{is_under, IsClosureOf};

use crate::walk::{roles_above, told_above};
use cd_base::{Memory, Role, RolePair, Seq};
use std::alloc::Global;
use std::marker::Model;

/// For each role those that one pair or more lead to, ascending.
#[derive(Debug, Drop)]
pub struct Closure {
    above: Seq<Seq<u32>>,
}

impl Model for Closure {
    ghost use Rattle.std.specs.Prelude.{ℕ, List, All};
    ghost use Rattle.std.specs.List.Sorted.{IsNonDecreasing};

    ghost Value = { List (List ℕ) };

    ghost view = { λ closure. closure.above };

    ghost invariant = { λ closure. All IsNonDecreasing closure.above };
}

impl Closure {
    /// The least reflexive and transitive relation over the pairs. Time and memory by the roles and the related pairs.
    pub fn of(alloc: Global, roles: u32, pairs: &[RolePair]) -> Result<Closure, Memory>
        requires { IsTrue (list_all (has_roles_below roles) pairs.now) }
        ensures { IfOk result (λ closure. IsClosureOf closure roles pairs.now) }
    {
        let told = told_above(alloc, roles, pairs)?;
        let mut above = Vec::new(alloc);
        for role in 0..roles {
            above.push(roles_above(alloc, told.as_slice(), role)?)?;
        }
        Ok(Closure {
            above: Seq::of(above),
        })
    }

    /// Whether the lower role is under the higher one. Logarithmic in the roles above it.
    pub fn below(&self, lower: Role, higher: Role) -> bool
        requires lower { lower < length self.now }
        requires higher { higher < length self.now }
        ensures { result ≡ is_under self.now lower higher }
    {
        lower.0 == higher.0 || has(self.above.items()[lower.0 as usize].items(), higher.0)
    }
}

/// Whether the number is one of these, which ascend. Logarithmic in them.
fn has(numbers: &[u32], number: u32) -> bool
    requires { IsNonDecreasing numbers.now }
    ensures { result ≡ list_any (λ n. n == number) numbers.now }
{
    numbers.binary_search(&number).is_ok()
}
