//! The atom of an expression, from those of its parts.
ghost use Rattle.std.specs.Prelude.{◌≡◌, ◌+◌, ◌*◌, ◌<◌, ◌^◌, ℕ, sum_by, length, IsTrue, IfOk, map};
ghost use Rattle.std.specs.List.{list_all};
ghost use Rattle.cd_meaning.specs.Nodes.{nodes_of};
ghost use Rattle.cd_meaning.specs.Numbered.{is_in_range};
ghost use Rattle.cd_meaning.specs.declared.expression.Expr.TheVariants.{AllOf};
ghost use Rattle.cd_normal.specs.Made.{form, IsUse, IsUseEach, IsGrownBy};

use crate::maker::Maker;
use cd_base::{Atom, Memory};
use cd_meaning::Expr;
use std::alloc::Global;

/// The pos or neg atom of an expression in negation normal form, or of its complement.
///
/// Linear in the expression's nodes.
#[cycle(used)]
pub fn used(
    maker: &mut Maker,
    alloc: Global,
    classes: u32,
    e: &Expr,
    sign: bool,
    flipped: bool,
) -> Result<u32, Memory>
    requires within { (roles : ℕ) × IsTrue (is_in_range classes roles e.now) }
    requires few { maker.old.next + 2 * nodes_of e.now < 2 ^ 32 }
    ensures is_use { IfOk result
        (λ x. IsUse classes maker.old maker.new sign (form flipped e.now) x) }
    ensures grown { IfOk result (λ x. IsGrownBy maker.old maker.new sign 1 (nodes_of e.now)) }
{
    match e {
        Expr::Name(class) => {
            if flipped {
                maker.minus_use(alloc, *class, sign)
            } else {
                Ok(*class)
            }
        }
        Expr::Minus(part) => used(maker, alloc, classes, part.get(), sign, !flipped),
        Expr::SomeOf(role, part) => {
            if flipped {
                universal(maker, alloc, classes, *role, part.get(), sign, flipped)
            } else {
                let y = used(maker, alloc, classes, part.get(), sign, flipped)?;
                maker.some_use(*role, y, sign)
            }
        }
        Expr::AllOf(role, part) => {
            if flipped {
                let y = used(maker, alloc, classes, part.get(), sign, flipped)?;
                maker.some_use(*role, y, sign)
            } else {
                universal(maker, alloc, classes, *role, part.get(), sign, flipped)
            }
        }
        Expr::Meet(parts) => {
            let ys = used_each(maker, alloc, classes, parts.as_slice(), sign, flipped)?;
            maker.list_use(alloc, ys, !flipped, sign)
        }
        Expr::Join(parts) => {
            let ys = used_each(maker, alloc, classes, parts.as_slice(), sign, flipped)?;
            maker.list_use(alloc, ys, flipped, sign)
        }
    }
}

#[cycle(used)]
fn universal(
    maker: &mut Maker,
    alloc: Global,
    classes: u32,
    role: u32,
    part: &Expr,
    sign: bool,
    flipped: bool,
) -> Result<u32, Memory>
    requires within { (roles : ℕ) × IsTrue (is_in_range classes roles part.now) }
    requires few { maker.old.next + 2 * (1 + nodes_of part.now) < 2 ^ 32 }
    ensures is_use { IfOk result
        (λ x. IsUse classes maker.old maker.new sign (AllOf role (form flipped part.now)) x) }
    ensures grown { IfOk result (λ x.
        IsGrownBy maker.old maker.new sign 1 (1 + nodes_of part.now)) }
{
    if sign {
        let y = used(maker, alloc, classes, part, true, flipped)?;
        maker.all_use(role, y)
    } else {
        let z = used(maker, alloc, classes, part, true, !flipped)?;
        maker.rest_use(alloc, role, z)
    }
}

/// The pos or neg atom of each of these expressions in negation normal form, or of its complement, in turn.
///
/// Linear in the expressions' nodes.
#[cycle(used)]
pub(crate) fn used_each(
    maker: &mut Maker,
    alloc: Global,
    classes: u32,
    parts: &[Expr],
    sign: bool,
    flipped: bool,
) -> Result<Vec<Atom>, Memory>
    requires within { (roles : ℕ) × IsTrue (list_all (is_in_range classes roles) parts.now) }
    requires few { maker.old.next + 2 * sum_by nodes_of parts.now < 2 ^ 32 }
    ensures is_use { IfOk result
        (λ xs. IsUseEach classes maker.old maker.new sign (map (form flipped) parts.now) xs.items) }
    ensures same_length { IfOk result (λ xs. length xs.items ≡ length parts.now) }
    ensures grown { IfOk result (λ xs.
        IsGrownBy maker.old maker.new sign (length parts.now) (sum_by nodes_of parts.now)) }
{
    let mut made = Vec::new(alloc);
    for part in parts {
        let x = used(maker, alloc, classes, part, sign, flipped)?;
        made.push(Atom(x))?;
    }
    Ok(made)
}
