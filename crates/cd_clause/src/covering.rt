//! The walk that decides whether one clause covers another.
ghost use Rattle.std.specs.Prelude.{◌≡◌, ◌⊎◌, ◌↔◌, true};
ghost use Rattle.std.specs.List.{list_any};
ghost use Rattle.cd_base.specs.Ascending.{Ascending};
ghost use Rattle.cd_base.specs.Lists.{OneOf, Within};
ghost use Rattle.cd_clause.specs.Covering.{is_as_strong, is_lower, Covers};
ghost use Rattle.cd_clause.specs.Elements.{is_before};
ghost use Rattle.cd_clause.specs.declared.elem.Elem.{Elem};

use crate::elem::Elem;

/// Whether each of the first, which ascend, is at least as strong as one of the second.
///
/// One walk over both, and for each existential of the first a look at those of its role in the second, and where it has no weaker one,
/// at those of higher roles.
pub(crate) fn covers(left: &[Elem], right: &[Elem]) -> bool
    requires { Ascending is_before left.now }
    ensures { (result ≡ true) ↔ Covers left.now right.now }
{
    let mut wanted = left;
    let mut rest = right;
    while let [elem, later @ ..] = wanted {
        let left_over = not_lower(elem, rest);
        if !has_weaker(elem, left_over) {
            return false;
        }
        rest = left_over;
        wanted = later;
    }
    true
}

/// These elements without those at their head that stand before the element whatever its key. Linear in what is left out.
fn not_lower<'a>(elem: &Elem, all: &'a [Elem]) -> &'a [Elem]
    ensures fewer { Within result.now all.now }
    ensures lower { (f : Elem) → OneOf f all.now
        → OneOf f result.now ⊎ (is_lower f elem.now ≡ true) }
{
    let mut rest = all;
    while let [first, others @ ..] = rest {
        if !first.is_lower(elem) {
            return rest;
        }
        rest = others;
    }
    rest
}

/// Whether the element is at least as strong as one of these. Linear in them.
fn has_weaker(elem: &Elem, all: &[Elem]) -> bool
    ensures { result ≡ list_any (λ f. is_as_strong elem.now f) all.now }
{
    all.iter().any(|other| elem.is_as_strong(other))
}
