//! The rule Neg.
ghost use Rattle.std.specs.Prelude.{◌≡◌, ◌==◌, map, IsOk};
ghost use Rattle.std.specs.List.{list_any};
ghost use Rattle.cd_base.specs.Keys.{code};
ghost use Rattle.cd_base.specs.Appends.{Appends};
ghost use Rattle.cd_rules.specs.Among.{Among};
ghost use Rattle.cd_rules.specs.Steps.{IsNeg};

use cd_base::{Atom, Key, Lit, Memory};
use cd_clause::Clause;

/// ```text
/// N + A     the key has not A
/// ---------------------------
///              N
/// ```
///
/// `others` is N. Linear in the key and in `others`.
pub(crate) fn neg(
    key: &Key,
    atom: Atom,
    others: &Clause,
    out: &mut Vec<Clause>,
) -> Result<(), Memory>
    ensures { Appends Among (IsNeg key.now atom others.now)
        (IsOk result) out.old.items out.new.items }
{
    let literal = Lit {
        atom,
        negated: true,
    };
    if has_code(key.lits(), literal.code()) {
        out.push(others.copy()?)?;
    }
    Ok(())
}

/// Whether one of the literals has this code. Linear in them.
fn has_code(lits: &[Lit], number: u64) -> bool
    ensures { result ≡ list_any (λ k. k == number) (map code lits.now) }
{
    let mut rest = lits;
    'lits: while let [lit, later @ ..] = rest {
        if lit.code() == number {
            return true;
        }
        rest = later;
    }
    false
}
