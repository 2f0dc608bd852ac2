//! What the contexts of the classes tell of them.
ghost use Rattle.std.specs.Prelude.{◌≡◌, ◌<◌, ◌∷◌, ◌++◌, [], ℕ, IfOk, OnOk};
ghost use Rattle.cd_base.specs.Keys.{plain};
ghost use Rattle.cd_base.specs.declared.normal.Normal.{Normal};
ghost use Rattle.cd_cell.specs.Cells.{place_of};
ghost use Rattle.cd_cell.specs.TrueAnswers.{IsTrueReading};
ghost use Rattle.cd_saturation.specs.Decided.{AreExactCells, IsDecided, answer_of, group_of};
ghost use Rattle.cd_saturation.specs.Saturation.{HasBegun};

use crate::group::Group;
use crate::groups::push_open;
use crate::saturation::place_of;
use cd_base::{Answer, Atom, Key, Memory};
use cd_cell::{Cell, Reading};
use std::alloc::Global;

/// Reads the contexts of the first classes, in turn: what each tells is its answer, and what it leaves open a group.
///
/// For each class the cost of `Cell::read`.
pub(crate) fn read_classes(
    alloc: Global,
    cells: &[Cell<'_>],
    count: u32,
    classes: u32,
    above: &mut Vec<Answer>,
    groups: &mut Vec<Group>,
) -> Result<(), Memory>
    requires count { 0 < count }
    requires begun { (a : ℕ) → a < classes → HasBegun count cells.now (plain a ∷ []) }
    requires no_answers { above.old.items ≡ [] }
    requires no_groups { groups.old.items ≡ [] }
    ensures { OnOk result ((n : Normal) → AreExactCells n cells.now
        → IsDecided n classes above.new.items groups.new.items) }
{
    for class in 0..classes {
        let reading = read_in(alloc, cells, count, class)?;
        push_reading(class, reading, above, groups)?;
    }
    Ok(())
}

/// What the class's context tells in its cell.
fn read_in(alloc: Global, cells: &[Cell<'_>], count: u32, class: u32) -> Result<Reading, Memory>
    requires count { 0 < count }
    requires begun { HasBegun count cells.now (plain class ∷ []) }
    ensures { IfOk result (λ reading. (n : Normal) → AreExactCells n cells.now
        → IsTrueReading n class reading) }
{
    let place = cell_of(alloc, class, count);
    cells[place].read(alloc, Atom(class))
}

/// Which of so many cells has the context of the class. Constant time.
fn cell_of(alloc: Global, class: u32, count: u32) -> usize
    requires { 0 < count }
    ensures { result ≡ place_of count (plain class ∷ []) }
{
    place_of(&Key::single(alloc, Atom(class)), count)
}

/// Appends the answer and the group of what was read of the class.
fn push_reading(
    class: u32,
    reading: Reading,
    above: &mut Vec<Answer>,
    groups: &mut Vec<Group>,
) -> Result<(), Memory>
    ensures answer { OnOk result (above.new.items ≡ above.old.items ++ answer_of reading ∷ []) }
    ensures group { OnOk result (groups.new.items ≡ groups.old.items ++ group_of class reading) }
{
    match reading {
        Reading::Unsatisfiable => above.push(Answer::Unsatisfiable)?,
        Reading::Of(names, open) => {
            above.push(Answer::Of(names))?;
            push_open(class, open, groups)?;
        }
    }
    Ok(())
}
