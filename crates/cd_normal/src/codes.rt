//! Expressions written as numbers.
ghost use Rattle.std.specs.Prelude.{◌≡◌, ◌++◌, ◌∷◌, [], OnOk};
ghost use Rattle.std.specs.List.{flat_map};
ghost use Rattle.cd_normal.specs.Codes.{code};

use cd_base::Memory;
use cd_meaning::Expr;

/// Writes the code of an expression. Linear in its nodes, and recurs as deep as it nests.
#[cycle(write_code)]
pub(crate) fn write_code(out: &mut Vec<u32>, e: &Expr) -> Result<(), Memory>
    ensures { OnOk result (out.new.items ≡ out.old.items ++ code e.now) }
{
    match e {
        Expr::Name(class) => write_two(out, 0, *class),
        Expr::Meet(parts) => {
            out.push(1)?;
            write_codes(out, parts.as_slice())
        }
        Expr::Join(parts) => {
            out.push(2)?;
            write_codes(out, parts.as_slice())
        }
        Expr::Minus(part) => {
            out.push(3)?;
            write_code(out, part.get())
        }
        Expr::SomeOf(role, part) => {
            write_two(out, 4, *role)?;
            write_code(out, part.get())
        }
        Expr::AllOf(role, part) => {
            write_two(out, 5, *role)?;
            write_code(out, part.get())
        }
    }
}

/// Writes the codes of the parts, and their end. Linear in their nodes.
#[cycle(write_code)]
fn write_codes(out: &mut Vec<u32>, parts: &[Expr]) -> Result<(), Memory>
    ensures { OnOk result (out.new.items ≡ out.old.items ++ (flat_map code parts.now ++ 6 ∷ [])) }
{
    for part in parts {
        write_code(out, part)?;
    }
    out.push(6)?;
    Ok(())
}

/// Writes two numbers. Constant time, but for growing the list.
fn write_two(out: &mut Vec<u32>, form: u32, number: u32) -> Result<(), Memory>
    ensures { OnOk result (out.new.items ≡ out.old.items ++ form ∷ number ∷ []) }
{
    out.push(form)?;
    out.push(number)?;
    Ok(())
}
