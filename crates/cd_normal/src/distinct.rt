//! The first operand of each tree.
ghost use Rattle.std.specs.Prelude.{◌<◌, [], map, length, IfOk};
ghost use Rattle.std.specs.List.{All};
ghost use Rattle.cd_normal.specs.NormalForm.{Kept};
ghost use Rattle.cd_normal.specs.Operands.{operand};

use crate::codes::write_code;
use cd_base::Memory;
use cd_meaning::Expr;
use std::alloc::Global;
use std::collections::HashSet;

/// The places of the operands that equal no earlier one as trees, in their order.
///
/// One look-up an operand, so linear in the operands' nodes.
pub(crate) fn distinct(alloc: Global, operands: &[Expr]) -> Result<Vec<usize>, Memory>
    ensures kept { IfOk result (λ places.
        Kept [] operands.now (map (operand operands.now) places.items)) }
    ensures within { IfOk result
        (λ places. All (λ place. place < length operands.now) places.items) }
{
    let mut seen = HashSet::new(alloc);
    let mut places = Vec::new(alloc);
    for i in 0..operands.len() {
        let mut code = Vec::new(alloc);
        write_code(&mut code, &operands[i])?;
        if seen.insert(code)? {
            places.push(i)?;
        }
    }
    Ok(places)
}
