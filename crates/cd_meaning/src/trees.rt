//! Class expressions compared as trees.
ghost use Rattle.std.specs.Prelude.{◌≡◌, ◌↔◌, IsTrue};

use crate::expression::Expr;

/// Whether two expressions are one tree. Linear in the smaller one, and recurs as deep as it nests.
#[cycle(same_tree)]
pub(crate) fn same_tree(a: &Expr, b: &Expr) -> bool
    ensures { IsTrue result ↔ (a.now ≡ b.now) }
{
    match (a, b) {
        (Expr::Name(x), Expr::Name(y)) => *x == *y,
        (Expr::Meet(xs), Expr::Meet(ys)) => same_trees(xs.as_slice(), ys.as_slice()),
        (Expr::Join(xs), Expr::Join(ys)) => same_trees(xs.as_slice(), ys.as_slice()),
        (Expr::Minus(x), Expr::Minus(y)) => same_tree(x.get(), y.get()),
        (Expr::SomeOf(r, x), Expr::SomeOf(s, y)) => *r == *s && same_tree(x.get(), y.get()),
        (Expr::AllOf(r, x), Expr::AllOf(s, y)) => *r == *s && same_tree(x.get(), y.get()),
        _ => false,
    }
}

/// Linear in the smaller list's trees.
#[cycle(same_tree)]
fn same_trees(xs: &[Expr], ys: &[Expr]) -> bool
    ensures { IsTrue result ↔ (xs.now ≡ ys.now) }
{
    if xs.len() != ys.len() {
        return false;
    }
    for i in 0..xs.len() {
        if !same_tree(&xs[i], &ys[i]) {
            return false;
        }
    }
    true
}
