//! The search for live clauses that cover a clause.
ghost use Rattle.std.specs.Prelude.{◌≡◌, ◌↔◌, ◌<◌, ℕ, [], true, slice_index_or, MatchOption};
ghost use Rattle.cd_base.specs.Lists.{OneOf};
ghost use Rattle.cd_clause.specs.Covering.{is_as_strong};
ghost use Rattle.cd_clause.specs.declared.elem.Elem.{Elem};
ghost use Rattle.cd_clause.specs.Derivations.{Redundant};
ghost use Rattle.cd_clause.specs.Numbers.{picked};
ghost use Rattle.cd_store.specs.Filing.{AreFiled, IsUnderLast};
ghost use Rattle.cd_store.specs.Store.{IsStore, IsHeld, IsAscending};
ghost use Rattle.cd_store.specs.Coverings.{HoldsCovering, IsAtMost, IsCovering};

use crate::filing::Filing;
use cd_clause::Clause;

/// The least of the live numbers whose clause covers this one. For each element of the clause the look-ups of `Filing::ending_as_strong`;
/// and for each clause found by them, logarithmic in the live numbers, and a walk over both clauses where it is live.
pub(crate) fn find_covering(
    filing: &Filing,
    clauses: &[Clause],
    live: &[usize],
    clause: &Clause,
) -> Option<usize>
    requires store { IsStore clauses.now live.now }
    requires filed { AreFiled filing.now clauses.now }
    ensures { MatchOption result (Redundant (picked clauses.now live.now) clause.now → ⊥)
        (λ i. IsHeld clauses.now live.now clause.now i) }
{
    let first = first_covering(clauses, live, clause);
    least_by_elems(filing, clauses, live, clause, first)
}

/// The first of the live numbers, if its clause covers this one. No live clause covers another, so the empty clause is the only live one
/// where it is live, and no element leads to it. Logarithmic in the live numbers, and one walk over both clauses.
fn first_covering(clauses: &[Clause], live: &[usize], clause: &Clause) -> Option<usize>
    requires { IsStore clauses.now live.now }
    ensures holds { HoldsCovering clauses.now live.now clause.now result }
    ensures empty { (n : ℕ) → OneOf n live.now → slice_index_or clauses.now n [] ≡ []
        → IsAtMost result n }
{
    match live {
        [] => None,
        [number, ..] => lowered(clauses, live, clause, None, *number),
    }
}

/// The least of what was found and of the clauses whose last element is at least as strong as one of the clause, of those that cover it
/// alone. Costs as `find_covering`.
fn least_by_elems(
    filing: &Filing,
    clauses: &[Clause],
    live: &[usize],
    clause: &Clause,
    found: Option<usize>,
) -> Option<usize>
    requires store { IsStore clauses.now live.now }
    requires holds { HoldsCovering clauses.now live.now clause.now found }
    ensures holds { HoldsCovering clauses.now live.now clause.now result }
    ensures lower { (n : ℕ) → IsAtMost found n → IsAtMost result n }
    ensures covers { (f e : Elem) (n : ℕ) → OneOf f clause.now → is_as_strong e f ≡ true
        → IsUnderLast filing.now n e → IsCovering clauses.now live.now clause.now n
        → IsAtMost result n }
{
    let mut least = found;
    let mut rest = clause.elems();
    'elems: while let [elem, others @ ..] = rest {
        least = least_among(clauses, live, clause, least, filing.ending_as_strong(elem));
        rest = others;
    }
    least
}

/// The least of what was found and these numbers, of those of live clauses that cover this one alone. Linear in the numbers, each as in
/// `lowered`.
fn least_among(
    clauses: &[Clause],
    live: &[usize],
    clause: &Clause,
    found: Option<usize>,
    numbers: &[usize],
) -> Option<usize>
    requires store { IsStore clauses.now live.now }
    requires holds { HoldsCovering clauses.now live.now clause.now found }
    ensures holds { HoldsCovering clauses.now live.now clause.now result }
    ensures lower { (n : ℕ) → IsAtMost found n → IsAtMost result n }
    ensures covers { (n : ℕ) → OneOf n numbers.now → IsCovering clauses.now live.now clause.now n
        → IsAtMost result n }
{
    let mut least = found;
    let mut rest = numbers;
    'numbers: while let [number, others @ ..] = rest {
        least = lowered(clauses, live, clause, least, *number);
        rest = others;
    }
    least
}

/// The number in place of what was found, if it is lower and that of a live clause that covers this one. Logarithmic in the live numbers,
/// and one walk over both clauses, at most.
fn lowered(
    clauses: &[Clause],
    live: &[usize],
    clause: &Clause,
    found: Option<usize>,
    number: usize,
) -> Option<usize>
    requires store { IsStore clauses.now live.now }
    requires holds { HoldsCovering clauses.now live.now clause.now found }
    ensures holds { HoldsCovering clauses.now live.now clause.now result }
    ensures lower { (n : ℕ) → IsAtMost found n → IsAtMost result n }
    ensures covers { IsCovering clauses.now live.now clause.now number → IsAtMost result number }
{
    if is_at_most(&found, number) {
        return found;
    }
    if is_covering(clauses, live, clause, number) {
        return Some(number);
    }
    found
}

/// Whether a number was found that is at most this one. Constant time.
fn is_at_most(found: &Option<usize>, number: usize) -> bool
    ensures { (result ≡ true) ↔ IsAtMost found.now number }
{
    match found {
        Some(i) => *i <= number,
        None => false,
    }
}

/// Whether the number is live and its clause covers this one. Logarithmic in the live numbers, and one walk over both clauses.
fn is_covering(clauses: &[Clause], live: &[usize], clause: &Clause, number: usize) -> bool
    requires { IsStore clauses.now live.now }
    ensures { (result ≡ true) ↔ IsCovering clauses.now live.now clause.now number }
{
    if !is_among(live, number) {
        return false;
    }
    clauses[number].covers(clause)
}

/// Whether the number is one of these, which ascend. Logarithmic in them.
pub(crate) fn is_among(live: &[usize], number: usize) -> bool
    requires { IsAscending live.now }
    ensures { (result ≡ true) ↔ OneOf number live.now }
{
    live.binary_search(&number).is_ok()
}
