//! Operands that have no common element, by a chain of fresh atoms.
ghost use Rattle.std.specs.Prelude.{◌≡◌, ◌<◌, ◌+◌, ◌*◌, ◌^◌, ℕ, sum_by, length, map, false, IsTrue, IfOk};
ghost use Rattle.std.specs.List.{All, list_all};
ghost use Rattle.cd_meaning.specs.Nodes.{nodes_of};
ghost use Rattle.cd_meaning.specs.Numbered.{is_in_range};
ghost use Rattle.cd_nnf.specs.Nnf.{nnf};
ghost use Rattle.cd_normal.specs.Made.{IsGiven, IsGrown, IsGrownBy, IsUseEach};
ghost use Rattle.cd_normal.specs.NormalForm.{GivesApart};
ghost use Rattle.cd_normal.specs.Operands.{operand};

use crate::chain::chain;
use crate::distinct::distinct;
use crate::maker::Maker;
use crate::uses::used;
use cd_base::{Atom, Memory};
use cd_meaning::Expr;
use std::alloc::Global;

/// Adds what says that every two of the operands that differ as trees have no common element.
///
/// Linear in the operands' nodes.
pub(crate) fn apart(
    maker: &mut Maker,
    alloc: Global,
    classes: u32,
    operands: &[Expr],
) -> Result<(), Memory>
    requires within { (roles : ℕ) × IsTrue (list_all (is_in_range classes roles) operands.now) }
    requires few { maker.old.next + 3 * sum_by nodes_of operands.now < 2 ^ 32 }
    ensures given { IfOk result (λ done. (k : ℕ)
        → IsGiven classes maker.old maker.new
        (λ Fresh axs. GivesApart classes Fresh k operands.now axs)) }
    ensures grown { IfOk result (λ done.
        IsGrown maker.old maker.new (3 * sum_by nodes_of operands.now)
        (6 * sum_by nodes_of operands.now)) }
{
    let places = distinct(alloc, operands)?;
    if places.len() < 2 {
        return Ok(());
    }
    let xs = used_at(maker, alloc, classes, operands, &places)?;
    chain(maker, alloc, &xs)
}

/// The neg atoms of the operands at these places, in turn. Linear in the nodes of these operands.
fn used_at(
    maker: &mut Maker,
    alloc: Global,
    classes: u32,
    operands: &[Expr],
    places: &[usize],
) -> Result<Vec<Atom>, Memory>
    requires within { (roles : ℕ) × IsTrue (list_all (is_in_range classes roles) operands.now) }
    requires inside { All (λ place. place < length operands.now) places.now }
    requires few { maker.old.next + 2 * sum_by nodes_of (map (operand operands.now) places.now)
        < 2 ^ 32 }
    ensures is_use { IfOk result
        (λ xs. IsUseEach classes maker.old maker.new false
        (map nnf (map (operand operands.now) places.now)) xs.items) }
    ensures same_length { IfOk result (λ xs. length xs.items ≡ length places.now) }
    ensures grown { IfOk result (λ xs.
        IsGrownBy maker.old maker.new false (length places.now)
        (sum_by nodes_of (map (operand operands.now) places.now))) }
{
    let mut made = Vec::new(alloc);
    for place in places {
        let x = used(maker, alloc, classes, &operands[*place], false, false)?;
        made.push(Atom(x))?;
    }
    Ok(made)
}
