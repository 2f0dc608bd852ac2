//! What is open of the superclasses of classes, decided in rounds.
ghost use Rattle.std.specs.Prelude.{◌≡◌, ◌<◌, ◌≤◌, ◌+◌, ◌++◌, [], ℕ, true, length, IfOk, IfErr, OnOk};
ghost use Rattle.cd_actor.specs.Cells.{AreAllLawful, AreCells, AreOf};
ghost use Rattle.cd_actor.specs.Settled.{IsSettled};
ghost use Rattle.cd_base.specs.Keys.{is_named};
ghost use Rattle.cd_base.specs.Lists.{OneOf};
ghost use Rattle.cd_base.specs.declared.normal.Normal.{Normal};
ghost use Rattle.cd_cell.specs.Cells.{meaning};
ghost use Rattle.cd_cell.specs.TrueAnswers.{IsTrueTest};
ghost use Rattle.cd_model.specs.Canonical.{RolesInRange};
ghost use Rattle.cd_saturation.specs.Decided.{AreExactCells, HasMore, IsDecided, IsTrueTestOf, Replaces, with_name};
ghost use Rattle.cd_saturation.specs.Groups.{key_of, starts_of, weight, weights};
ghost use Rattle.cd_saturation.specs.Limit.{HasHalted};
ghost use Rattle.cd_saturation.specs.Saturation.{AreRun, HasBegun, HasClosure};
ghost use Rattle.cd_saturation.specs.declared.group.Group.{Group};

use crate::group::Group;
use crate::groups::{key_of, list_starts, push_halves};
use crate::halt::Halt;
use crate::saturation::{place_of, run_on};
use cd_base::{Answer, Atom, Key, Limits, Memory};
use cd_cell::Cell;
use cd_context::Note;
use cd_index::Index;
use std::alloc::Global;
use std::mem;

/// Runs the cells on with the contexts of the groups, and takes what these decide into the answers, until no group is left. The index is
/// that of the cells.
///
/// At most one round more than the longest group can be halved, each with the cost of `run_on` and of `decide_groups`.
pub(crate) fn decide_rounds<'a>(
    alloc: Global,
    index: &Index,
    classes: u32,
    limits: &Limits,
    cells: &mut Vec<Cell<'a>>,
    above: &mut Vec<Answer>,
    groups: &mut Vec<Group>,
) -> Result<(), Halt>
    requires named { (a : ℕ) → a < classes → is_named index.now.normal a ≡ true }
    requires closure { HasClosure index.now.normal }
    requires roles { RolesInRange index.now.normal }
    requires run { AreRun index.now.normal limits.now.cells classes cells.old.items }
    requires decided { IsDecided index.now.normal classes above.old.items groups.old.items }
    ensures decided { OnOk result (IsDecided index.now.normal classes above.new.items []) }
    ensures halted { IfErr result
        (HasHalted index.now.normal limits.now.max_contexts limits.now.max_facts) }
{
    'rounds: while !groups.is_empty() {
        run_groups(alloc, limits, cells, groups)?;
        decide_groups(alloc, cells, limits.cells, above, groups)?;
    }
    Ok(())
}

/// Runs the cells on with the contexts of the groups.
fn run_groups<'a>(
    alloc: Global,
    limits: &Limits,
    cells: &mut Vec<Cell<'a>>,
    groups: &[Group],
) -> Result<(), Halt>
    requires cells { AreCells meaning cells.old.items }
    requires start { AreAllLawful meaning cells.old.items
        (starts_of limits.now.cells groups.now) }
    ensures settled { OnOk result (IsSettled meaning cells.old.items
        (starts_of limits.now.cells groups.now) cells.new.items) }
    ensures halted { IfErr result (λ halt. (count : ℕ) (n : Normal)
        → AreOf meaning (count, n) cells.old.items
        → HasHalted n limits.now.max_contexts limits.now.max_facts halt) }
{
    let start = starts(alloc, groups, limits.cells)?;
    let held = mem::replace(cells, Vec::new(alloc));
    *cells = run_on(alloc, held, start, limits)?;
    Ok(())
}

/// The messages that begin the contexts of the groups.
fn starts(alloc: Global, groups: &[Group], count: u32) -> Result<Vec<(u32, Note)>, Memory>
    requires { 0 < count }
    ensures { IfOk result (λ start. start.items ≡ starts_of count groups.now) }
{
    let mut start = Vec::new(alloc);
    list_starts(alloc, groups, count, &mut start)?;
    Ok(start)
}

/// Takes what the contexts of the groups decide into the answers, and leaves the groups that are still open.
fn decide_groups(
    alloc: Global,
    cells: &[Cell<'_>],
    count: u32,
    above: &mut Vec<Answer>,
    groups: &mut Vec<Group>,
) -> Result<(), Memory>
    requires count { 0 < count }
    requires begun { (g : Group) → OneOf g groups.old.items
        → HasBegun count cells.now (key_of g.class g.names) }
    requires classes { (g : Group) → OneOf g groups.old.items → g.class < length above.old.items }
    ensures decides { OnOk result ((n : Normal) (classes : ℕ) → AreExactCells n cells.now
        → IsDecided n classes above.old.items groups.old.items
        → IsDecided n classes above.new.items groups.new.items) }
    ensures lighter { OnOk result
        (weights groups.new.items + length groups.old.items ≤ weights groups.old.items) }
{
    let asked = mem::replace(groups, Vec::new(alloc));
    let done = decide_each(alloc, cells, count, &asked, above, groups);
    drop(asked);
    done
}

/// Takes what the contexts of the groups that are asked decide into the answers, and appends the groups that are still open.
fn decide_each(
    alloc: Global,
    cells: &[Cell<'_>],
    count: u32,
    asked: &[Group],
    above: &mut Vec<Answer>,
    groups: &mut Vec<Group>,
) -> Result<(), Memory>
    requires count { 0 < count }
    requires begun { (g : Group) → OneOf g asked.now
        → HasBegun count cells.now (key_of g.class g.names) }
    requires classes { (g : Group) → OneOf g asked.now → g.class < length above.old.items }
    ensures decides { OnOk result ((n : Normal) (classes : ℕ) → AreExactCells n cells.now
        → IsDecided n classes above.old.items (groups.old.items ++ asked.now)
        → IsDecided n classes above.new.items groups.new.items) }
    ensures lighter { OnOk result (weights groups.new.items + length asked.now
        ≤ weights groups.old.items + weights asked.now) }
{
    let mut rest = asked;
    'asked: while let [group, others @ ..] = rest {
        let empty = is_empty(alloc, cells, count, group)?;
        decide_group(alloc, group, empty, above, groups)?;
        rest = others;
    }
    Ok(())
}

/// Whether nothing can be in the class of the group and in none of its names, as the context of the group tells.
fn is_empty(alloc: Global, cells: &[Cell<'_>], count: u32, group: &Group) -> Result<bool, Memory>
    requires count { 0 < count }
    requires begun { HasBegun count cells.now (key_of group.now.class group.now.names) }
    ensures { IfOk result (λ empty. (n : Normal) → AreExactCells n cells.now
        → IsTrueTest n group.now.class group.now.names empty) }
{
    let key = key_of(alloc, group)?;
    let empty = has_empty(cells, count, &key);
    drop(key);
    Ok(empty)
}

/// Whether the context of the key has the empty clause in its cell.
fn has_empty(cells: &[Cell<'_>], count: u32, key: &Key) -> bool
    requires count { 0 < count }
    requires begun { HasBegun count cells.now key.now }
    ensures { (n : Normal) → AreExactCells n cells.now → IsTrueTestOf n key.now result }
{
    let place = place_of(key, count);
    cells[place].has_empty_at(key)
}

/// Takes the test of a group into the answers. Where something can be in the class and in none of the names, the class is below none of
/// them. Else it is below the name, if that is one; and if they are more, both halves are groups that are open.
fn decide_group(
    alloc: Global,
    group: &Group,
    empty: bool,
    above: &mut Vec<Answer>,
    groups: &mut Vec<Group>,
) -> Result<(), Memory>
    requires { group.now.class < length above.old.items }
    ensures each { OnOk result (length above.new.items ≡ length above.old.items) }
    ensures decides { OnOk result ((n : Normal)
        → IsTrueTest n group.now.class group.now.names empty
        → Replaces n group.now above.old.items groups.old.items above.new.items groups.new.items) }
    ensures lighter { OnOk result
        (weights groups.new.items < weights groups.old.items + weight group.now.names) }
{
    let names = group.names.items();
    if !empty {
        return Ok(());
    }
    if names.is_empty() {
        return Ok(());
    }
    if names.len() == 1 {
        return add_name(group.class, names[0], above);
    }
    push_halves(alloc, group.class, names, groups)
}

/// Adds a name to the answer of the class.
fn add_name(class: u32, name: Atom, above: &mut Vec<Answer>) -> Result<(), Memory>
    requires { class < length above.old.items }
    ensures { OnOk result (HasMore class name above.old.items above.new.items) }
{
    let place = class as usize;
    let answer = &mut above[place];
    push_name(name, answer)
}

/// Adds a name to an answer.
fn push_name(name: Atom, answer: &mut Answer) -> Result<(), Memory>
    ensures { OnOk result (answer.new ≡ with_name name answer.old) }
{
    match answer {
        Answer::Unsatisfiable => Ok(()),
        Answer::Of(names) => names.push(name),
    }
}
