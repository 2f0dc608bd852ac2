//! Lists of which each implies the next, and the last the first.
ghost use Rattle.std.specs.Prelude.{◌≡◌, ◌∷◌, [], ◌+◌, ◌≤◌, ◌<◌, length, IfOk};
ghost use Rattle.cd_normal.specs.Made.{rows, Adds, atom_link, role_link};
ghost use Rattle.cd_normal.specs.NormalForm.{circle};

use crate::maker::Maker;
use cd_base::{Atom, Memory, Role, RolePair};
use std::alloc::Global;

/// The place after this one, around a circle of so many.
fn wrapped(at: usize, size: usize) -> usize
    requires inside { at < size }
    ensures within { result < size }
    ensures inner { at + 1 < size → result ≡ at + 1 }
    ensures last { at + 1 ≡ size → result ≡ 0 }
{
    if at + 1 < size { at + 1 } else { 0 }
}

impl Maker {
    /// Each atom implies the next of the others, and the last the first of them. Linear in their number.
    pub(crate) fn imply_round(
        &mut self,
        alloc: Global,
        xs: &[Atom],
        ys: &[Atom],
    ) -> Result<(), Memory>
        requires same_length { length xs.now ≡ length ys.now }
        ensures next { self.new.next ≡ self.old.next }
        ensures few { rows self.new ≤ rows self.old + length xs.now }
        ensures adds { IfOk result (λ done.
            Adds self.old self.new (circle atom_link xs.now ys.now)) }
    {
        for at in 0..xs.len() {
            let next = wrapped(at, ys.len());
            let x = xs[at];
            let y = ys[next];
            self.link(alloc, x.0, y, true)?;
        }
        Ok(())
    }

    /// The first role is under the second. Constant time, but for growing the list.
    pub(crate) fn add_role(&mut self, lower: u32, higher: u32) -> Result<(), Memory>
        ensures next { self.new.next ≡ self.old.next }
        ensures few { rows self.new ≤ rows self.old + 1 }
        ensures adds { IfOk result (λ done. Adds self.old self.new (role_link lower higher ∷ [])) }
    {
        self.n5.push(RolePair {
            lower: Role(lower),
            higher: Role(higher),
        })?;
        Ok(())
    }

    /// Each role is under the next, and the last under the first. Linear in their number.
    pub(crate) fn under_round(&mut self, roles: &[u32]) -> Result<(), Memory>
        ensures next { self.new.next ≡ self.old.next }
        ensures few { rows self.new ≤ rows self.old + length roles.now }
        ensures adds { IfOk result (λ done.
            Adds self.old self.new (circle role_link roles.now roles.now)) }
    {
        for at in 0..roles.len() {
            let next = wrapped(at, roles.len());
            let lower = roles[at];
            let higher = roles[next];
            self.add_role(lower, higher)?;
        }
        Ok(())
    }
}
