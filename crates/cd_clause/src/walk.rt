//! The walks that make clauses, over their elements.
ghost use Rattle.std.specs.Prelude.{◌≡◌, ◌∷◌, ◌++◌, [], IfOk};
ghost use Rattle.cd_clause.specs.Elements.{is_before};
ghost use Rattle.cd_clause.specs.Merged.{merged, after};

use crate::elem::Elem;
use cd_base::Memory;
use smallvec::SmallVec;
use std::alloc::Global;

/// The elements with copies of others after them. Linear in what is copied, and takes no memory up to one element in all whose key
/// has at most four literals.
pub(crate) fn with_copies(
    below: SmallVec<Elem, 1>,
    all: &[Elem],
) -> Result<SmallVec<Elem, 1>, Memory>
    ensures { IfOk result (λ elems. elems.items ≡ below.items ++ all.now) }
{
    let mut elems = below;
    for elem in all {
        elems.push(elem.copy()?)?;
    }
    Ok(elems)
}

/// Copies of the elements of both, which ascend: the least of the two heads each time, once where they are the same. One walk over
/// both.
pub(crate) fn joined(
    alloc: Global,
    left: &[Elem],
    right: &[Elem],
) -> Result<SmallVec<Elem, 1>, Memory>
    ensures { IfOk result (λ elems. elems.items ≡ merged is_before left.now right.now) }
{
    let mut elems = SmallVec::new(alloc);
    let mut left_rest = left;
    let mut right_rest = right;
    while let [first, left_others @ ..] = left_rest {
        match right_rest {
            [] => return with_copies(elems, left_rest),
            [second, right_others @ ..] => {
                if first.is_before(second) {
                    elems.push(first.copy()?)?;
                    left_rest = left_others;
                } else if second.is_before(first) {
                    elems.push(second.copy()?)?;
                    right_rest = right_others;
                } else {
                    elems.push(first.copy()?)?;
                    left_rest = left_others;
                    right_rest = right_others;
                }
            }
        }
    }
    with_copies(elems, right_rest)
}

/// Copies of these elements, which ascend, with one element too: those below it, then itself, then those above it. One
/// walk.
pub(crate) fn with_elem(
    alloc: Global,
    all: &[Elem],
    elem: Elem,
) -> Result<SmallVec<Elem, 1>, Memory>
    ensures { IfOk result (λ elems. elems.items ≡ merged is_before (elem ∷ []) all.now) }
{
    let mut elems = SmallVec::new(alloc);
    for (place, old) in all.iter().enumerate() {
        if !old.is_before(&elem) {
            return with_above(elems, elem, &all[place..]);
        }
        elems.push(old.copy()?)?;
    }
    with_above(elems, elem, &[])
}

/// The elements with one more, and then copies of the rest, which may begin with it.
fn with_above(
    below: SmallVec<Elem, 1>,
    elem: Elem,
    rest: &[Elem],
) -> Result<SmallVec<Elem, 1>, Memory>
    ensures { IfOk result (λ elems. elems.items
        ≡ below.items ++ elem ∷ after is_before elem rest.now) }
{
    // What is above is found first, since the push takes the element.
    let above = after(&elem, rest);
    let mut elems = below;
    elems.push(elem)?;
    with_copies(elems, above)
}

/// What of the list is above the element: all of it but a head that the element isn't before. Constant time but for one comparison.
fn after<'a>(elem: &Elem, rest: &'a [Elem]) -> &'a [Elem]
    ensures { result.now ≡ after is_before elem.now rest.now }
{
    match rest {
        [first, above @ ..] if !elem.is_before(first) => above,
        _ => rest,
    }
}
