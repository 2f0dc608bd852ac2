//! Atoms that have no common element, by fresh atoms that stand for the unions of the first ones.
ghost use Rattle.std.specs.Prelude.{◌≡◌, ◌≤◌, ◌<◌, ◌+◌, ◌*◌, ◌^◌, ◌∷◌, [], ℕ, List, length, IfOk};
ghost use Rattle.cd_meaning.specs.NormalAxioms.{implies};
ghost use Rattle.cd_meaning.specs.declared.expression.Expr.{Expr};
ghost use Rattle.cd_normal.specs.Made.{rows, Adds, Closes, IsGiven, IsGrown};
ghost use Rattle.cd_normal.specs.NormalForm.{Apart};

use crate::maker::Maker;
use cd_base::{Atom, Memory};
use std::alloc::Global;

impl Maker {
    /// A fresh atom that x implies. Constant time, but for growing the list of axioms.
    fn above_one(&mut self, alloc: Global, x: Atom) -> Result<Atom, Memory>
        requires room { self.old.next + 1 < 2 ^ 32 }
        ensures closes { IfOk result
            (λ p. Closes self.old self.new p (implies (x ∷ []) (p ∷ []) ∷ [])) }
        ensures few { rows self.new ≤ rows self.old + 1 }
    {
        let p = Atom(self.fresh());
        let one = vec![in alloc; x]?;
        let union = vec![in alloc; p]?;
        self.add_implication(one, union)?;
        Ok(p)
    }

    /// A fresh atom that x and p imply, which are apart. Constant time, but for growing the list of axioms.
    fn above_both(&mut self, alloc: Global, x: Atom, p: Atom) -> Result<Atom, Memory>
        requires room { self.old.next + 1 < 2 ^ 32 }
        ensures closes { IfOk result
            (λ q. Closes self.old self.new q (implies (x ∷ []) (q ∷ []) ∷ implies (p ∷ []) (q ∷ [])
            ∷ implies (x ∷ p ∷ []) [] ∷ [])) }
        ensures few { rows self.new ≤ rows self.old + 3 }
    {
        self.part(alloc, x, p)?;
        let before = vec![in alloc; p]?;
        let q = self.above_one(alloc, x)?;
        let union = vec![in alloc; q]?;
        self.add_implication(before, union)?;
        Ok(q)
    }

    /// Adds that x and p are apart. Constant time, but for growing the list of axioms.
    fn part(&mut self, alloc: Global, x: Atom, p: Atom) -> Result<(), Memory>
        ensures next { self.new.next ≡ self.old.next }
        ensures adds { IfOk result (λ done. Adds self.old self.new (implies (x ∷ p ∷ []) [] ∷ [])) }
        ensures few { rows self.new ≤ rows self.old + 1 }
    {
        let both = vec![in alloc; x, p]?;
        self.add_implication(both, Vec::new(alloc))
    }
}

/// Adds what says that no two of at least two atoms have a common element. Linear in their number.
///
/// Of three or more, each but the last gets a fresh atom, which stands for its union with those before it.
pub(crate) fn chain(maker: &mut Maker, alloc: Global, xs: &[Atom]) -> Result<(), Memory>
    requires two { 2 ≤ length xs.now }
    requires room { maker.old.next + length xs.now < 2 ^ 32 }
    ensures given { IfOk result (λ done. (classes k : ℕ) (es : List Expr)
        → length es ≡ length xs.now
        → IsGiven classes maker.old maker.new (λ Fresh axs. Apart classes Fresh k es xs.now axs)) }
    ensures grown { IfOk result (λ done.
        IsGrown maker.old maker.new (length xs.now) (3 * length xs.now)) }
{
    if xs.len() == 2 {
        return maker.part(alloc, xs[0], xs[1]);
    }
    let mut p = maker.above_one(alloc, xs[0])?;
    for i in 1..xs.len() - 1 {
        p = maker.above_both(alloc, xs[i], p)?;
    }
    maker.part(alloc, xs[xs.len() - 1], p)
}
