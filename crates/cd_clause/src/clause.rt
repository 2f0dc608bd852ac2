//! Clauses: sets of elements in a fixed order.
ghost use Rattle.std.specs.Prelude.{◌≡◌, ◌<◌, ◌↔◌, ◌∷◌, ◌++◌, length, remove, true, IfOk};
ghost use Rattle.cd_base.specs.Lists.{SameSet};
ghost use Rattle.cd_base.specs.Ascending.{Ascending};
ghost use Rattle.cd_clause.specs.Covering.{Covers};
ghost use Rattle.cd_clause.specs.Elements.{is_before};

use crate::covering::covers;
use crate::elem::Elem;
use crate::walk::{joined, with_copies, with_elem};
use cd_base::Memory;
use smallvec::SmallVec;
use std::alloc::Global;
use std::marker::Model;

/// A set of elements. The atoms stand first, by number, and then the existentials by role and key, larger keys before those within them.
///
/// One element stands in the value itself, since most clauses have just one.
#[derive(Debug, Drop)]
pub struct Clause {
    elems: SmallVec<Elem, 1>,
}

impl Model for Clause {
    ghost use Rattle.std.specs.Prelude.{List};
    ghost use Rattle.cd_clause.specs.declared.elem.Elem.{Elem};

    ghost Value = { List Elem };

    ghost use Rattle.cd_base.specs.Ascending.{Ascending};
    ghost use Rattle.cd_clause.specs.Elements.{is_before};

    ghost view = { λ clause. clause.elems.items };

    ghost invariant = { λ clause. Ascending is_before clause.elems.items };
}

impl Clause {
    /// The clause of these elements, in any order and however often each. n log n comparisons for n elements, each of which is
    /// copied log n times.
    pub fn of(alloc: Global, elems: &[Elem]) -> Result<Clause, Memory>
        ensures { IfOk result (λ clause. SameSet clause elems.now) }
    {
        if elems.len() < 2 {
            let elems = with_copies(SmallVec::new(alloc), elems)?;
            return Ok(Clause { elems });
        }
        let (left, right) = elems.split_at(elems.len() / 2);
        Clause::of(alloc, left)?.join(&Clause::of(alloc, right)?)
    }

    /// Its elements, lent. Constant time.
    pub fn elems(&self) -> &[Elem]
        ensures elems { result.now ≡ self.now }
        ensures ascends { Ascending is_before self.now }
    {
        self.elems.as_slice()
    }

    /// The same clause again. Linear in its elements and their keys. Of one element whose key has at most four literals it takes no memory.
    pub fn copy(&self) -> Result<Clause, Memory>
        ensures { IfOk result (λ clause. clause ≡ self.now) }
    {
        let elems = with_copies(SmallVec::new(*self.elems.allocator()), self.elems())?;
        Ok(Clause { elems })
    }

    /// The elements of both. One walk over both.
    pub fn join(&self, other: &Clause) -> Result<Clause, Memory>
        ensures { IfOk result (λ clause. SameSet clause (self.now ++ other.now)) }
    {
        let elems = joined(*self.elems.allocator(), self.elems(), other.elems())?;
        Ok(Clause { elems })
    }

    /// The clause without the element at place `i`. Linear in its elements.
    pub fn without(&self, i: usize) -> Result<Clause, Memory>
        requires { i < length self.now }
        ensures { IfOk result (λ clause. clause ≡ remove self.now i) }
    {
        let (below, from) = self.elems().split_at(i);
        let elems = with_copies(SmallVec::new(*self.elems.allocator()), below)?;
        let elems = with_copies(elems, &from[1..])?;
        Ok(Clause { elems })
    }

    /// The clause with one element too. Linear in its elements.
    pub fn with(&self, elem: Elem) -> Result<Clause, Memory>
        ensures { IfOk result (λ clause. SameSet clause (elem ∷ self.now)) }
    {
        let elems = with_elem(*self.elems.allocator(), self.elems(), elem)?;
        Ok(Clause { elems })
    }

    /// Whether this clause covers the other: each of its elements is at least as strong as one of the other's, so that beside this one the
    /// other says nothing. One walk over both, and for each existential of this one a look at the existentials of the other.
    pub fn covers(&self, other: &Clause) -> bool
        ensures { (result ≡ true) ↔ Covers self.now other.now }
    {
        covers(self.elems(), other.elems())
    }
}
