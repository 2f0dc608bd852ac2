//! The superclasses of each class, as the contexts of closed cells tell them.
ghost use Rattle.std.specs.Prelude.{◌≡◌, ◌<◌, ◌-◌, ◌+◌, ◌*◌, ◌^◌, ℕ, [], true, length, IfOk, IfErr, OnOk, Err};
ghost use Rattle.cd_base.specs.Keys.{is_named};
ghost use Rattle.cd_base.specs.declared.limit_kind.LimitKind.{LimitKind};
ghost use Rattle.cd_meaning.specs.Nodes.{nodes};
ghost use Rattle.cd_model.specs.Canonical.{RolesInRange};
ghost use Rattle.cd_saturation.specs.Answers.{AreAnswers};
ghost use Rattle.cd_saturation.specs.Decided.{IsDecided};
ghost use Rattle.cd_saturation.specs.Limit.{HasHalted, IsReached};
ghost use Rattle.cd_saturation.specs.Saturation.{AreRun, HasClosure};

use crate::group::Group;
use crate::halt::Halt;
use crate::indexing::index_of;
use crate::readings::read_classes;
use crate::rounds::decide_rounds;
use crate::saturation::saturate;
use cd_base::{Answer, Limits};
use cd_cell::Cell;
use cd_index::Index;
use cd_meaning::Document;
use std::alloc::Global;

/// The answer for each class of the document: the classes that it is below, or that it can have no member.
///
/// Linear in the nodes of the document for its normal form and index; then the cost of the contexts until each conclusion is redundant,
/// for each class that of `Cell::read`, and that of the rounds in which what is open is decided. `Limit` where a maximum was reached before.
pub fn answers(alloc: Global, document: &Document, limits: &Limits) -> Result<Vec<Answer>, Halt>
    requires few { length document.now.classes + 6 * nodes document.now.axioms < 2 ^ 32 - 1 }
    ensures ok { IfOk result (λ above. AreAnswers document.now above.items) }
    ensures limit { (kind : LimitKind) (number : ℕ) → result ≡ Err (Halt.Limit kind number)
        → IsReached document.now limits.now.max_contexts limits.now.max_facts kind number }
{
    let index = index_of(alloc, document)?;
    let classes = count_classes(document);
    let above = decided_answers(alloc, &index, classes, limits);
    drop(index);
    above
}

/// How many classes the document has. Constant time.
fn count_classes(document: &Document) -> u32
    requires few { length document.now.classes < 2 ^ 32 }
    ensures { result ≡ length document.now.classes }
{
    document.classes.items().len() as u32
}

/// The answers of closed cells for the first classes, in which nothing is open.
fn decided_answers(
    alloc: Global,
    index: &Index,
    classes: u32,
    limits: &Limits,
) -> Result<Vec<Answer>, Halt>
    requires named { (a : ℕ) → a < classes → is_named index.now.normal a ≡ true }
    requires closure { HasClosure index.now.normal }
    requires roles { RolesInRange index.now.normal }
    ensures decided { IfOk result (λ above. IsDecided index.now.normal classes above.items []) }
    ensures halted { IfErr result
        (HasHalted index.now.normal limits.now.max_contexts limits.now.max_facts) }
{
    let mut cells = saturate(alloc, index, classes, limits)?;
    let above = answers_in(alloc, index, classes, limits, &mut cells);
    drop(cells);
    above
}

/// The answers of closed cells, which are run on until nothing is open. The index is that of the cells.
fn answers_in<'a>(
    alloc: Global,
    index: &Index,
    classes: u32,
    limits: &Limits,
    cells: &mut Vec<Cell<'a>>,
) -> Result<Vec<Answer>, Halt>
    requires named { (a : ℕ) → a < classes → is_named index.now.normal a ≡ true }
    requires closure { HasClosure index.now.normal }
    requires roles { RolesInRange index.now.normal }
    requires run { AreRun index.now.normal limits.now.cells classes cells.old.items }
    ensures decided { IfOk result (λ above. IsDecided index.now.normal classes above.items []) }
    ensures halted { IfErr result
        (HasHalted index.now.normal limits.now.max_contexts limits.now.max_facts) }
{
    let mut above = Vec::new(alloc);
    let mut groups = Vec::new(alloc);
    let done = decide_all(
        alloc,
        index,
        classes,
        limits,
        cells,
        &mut above,
        &mut groups,
    );
    drop(groups);
    done?;
    Ok(above)
}

/// Reads the contexts of the classes, and decides what they leave open. The index is that of the cells.
fn decide_all<'a>(
    alloc: Global,
    index: &Index,
    classes: u32,
    limits: &Limits,
    cells: &mut Vec<Cell<'a>>,
    above: &mut Vec<Answer>,
    groups: &mut Vec<Group>,
) -> Result<(), Halt>
    requires named { (a : ℕ) → a < classes → is_named index.now.normal a ≡ true }
    requires closure { HasClosure index.now.normal }
    requires roles { RolesInRange index.now.normal }
    requires run { AreRun index.now.normal limits.now.cells classes cells.old.items }
    requires no_answers { above.old.items ≡ [] }
    requires no_groups { groups.old.items ≡ [] }
    ensures decided { OnOk result (IsDecided index.now.normal classes above.new.items []) }
    ensures halted { IfErr result
        (HasHalted index.now.normal limits.now.max_contexts limits.now.max_facts) }
{
    read_classes(alloc, cells, limits.cells, classes, above, groups)?;
    decide_rounds(alloc, index, classes, limits, cells, above, groups)
}
