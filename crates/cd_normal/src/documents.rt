//! The normal axioms of a document.
ghost use Rattle.std.specs.Prelude.{◌≡◌, ◌≤◌, ◌<◌, ◌+◌, ◌*◌, ◌-◌, ◌^◌, ◌++◌, ℕ, true, false, length, replicate, IsTrue, IfOk};
ghost use Rattle.std.specs.List.{list_all};
ghost use Rattle.cd_base.specs.Normal.{has_atoms_below, is_triple_below, has_roles_below};
ghost use Rattle.cd_meaning.specs.Nodes.{nodes};
ghost use Rattle.cd_meaning.specs.Numbered.{has_numbers_below};
ghost use Rattle.cd_normal.specs.Made.{IsMadeOf, count, role_operands, rows};
ghost use Rattle.cd_normal.specs.NormalForm.{IsStructuralNormalForm, Extension};
ghost use Rattle.cd_meaning.specs.Entailment.{IsModel};
ghost use Rattle.cd_meaning.specs.NormalAxioms.{IsNormalModel};
ghost use Rattle.cd_meaning.specs.declared.interpretation.Interpretation.{Interpretation};

use crate::axioms::all_give;
use crate::maker::Maker;
use cd_base::{Atom, Memory, Normal, Seq};
use cd_meaning::{Axiom, Document, NOTHING, THING};
use cd_ranks::told_ranks;
use std::alloc::Global;

/// The normal axioms of a document, by structural transformation. The atoms below the number of classes are these classes.
///
/// Linear in the nodes of the document, but for a look-up of each operand of a disjointness and a sort of the classes by rank.
/// `normal_form` says which normal axioms they are: structural transformation, with a fresh atom for each use of an expression. The ranks
/// of the atoms (`cd_ranks`) are left open, since they change no answer.
pub fn normalise(alloc: Global, document: &Document) -> Result<Normal, Memory>
    requires few { length document.now.classes + 6 * nodes document.now.axioms < 2 ^ 32 - 1 }
    ensures normal_form { IfOk result (λ normal. IsStructuralNormalForm document.now normal) }

    // Every interpretation in which they hold is one of the document, and every one of the document extends to one in which they hold.
    ensures restricts { IfOk result (λ normal. (i : Interpretation) → IsNormalModel normal i
        → IsModel document.now.axioms i) }
    ensures extends { IfOk result (λ normal. (i : Interpretation) → IsModel document.now.axioms i
        → Extension document.now normal i) }

    // How many they are.
    ensures atoms { IfOk result (λ normal. normal.atoms
        ≤ length document.now.classes + 6 * nodes document.now.axioms) }
    ensures axioms { IfOk result (λ normal. count normal
        ≤ 12 * nodes document.now.axioms + role_operands document.now.axioms + 2) }
{
    let classes = document.classes.items().len() as u32;
    let roles = document.roles.items().len() as u32;
    let maker = made(alloc, classes, document.axioms.items())?;
    let named = flags(alloc, classes, maker.next - classes)?;
    let ranks = told_ranks(alloc, maker.next, classes, maker.n1.as_slice())?;
    Ok(packed(maker, named, ranks, roles))
}

/// What the axioms give, and that all is in owl:Thing and nothing in owl:Nothing.
fn made(alloc: Global, classes: u32, axioms: &[Axiom]) -> Result<Maker, Memory>
    requires within { (roles : ℕ) × IsTrue (list_all (has_numbers_below classes roles) axioms.now) }
    requires few { classes + 6 * nodes axioms.now < 2 ^ 32 }
    ensures made { IfOk result (λ maker. IsMadeOf classes axioms.now maker) }
    ensures atoms { IfOk result (λ maker. maker.next ≤ classes + 6 * nodes axioms.now) }
    ensures axioms { IfOk result (λ maker. rows maker
        ≤ 12 * nodes axioms.now + role_operands axioms.now + 2) }
{
    let mut maker = Maker {
        next: classes,
        n1: Vec::new(alloc),
        n2: Vec::new(alloc),
        n3: Vec::new(alloc),
        n4: Vec::new(alloc),
        n5: Vec::new(alloc),
    };
    all_give(&mut maker, alloc, classes, axioms)?;
    let nothing = vec![in alloc; Atom(NOTHING)]?;
    maker.add_implication(nothing, Vec::new(alloc))?;
    let thing = vec![in alloc; Atom(THING)]?;
    maker.add_implication(Vec::new(alloc), thing)?;
    Ok(maker)
}

/// So many times true, and then so many times false.
fn flags(alloc: Global, classes: u32, fresh: u32) -> Result<Vec<bool>, Memory>
    ensures { IfOk result (λ flags. flags.items ≡ replicate classes true ++ replicate fresh false) }
{
    let mut made = Vec::new(alloc);
    more_flags(&mut made, true, classes)?;
    more_flags(&mut made, false, fresh)?;
    Ok(made)
}

/// The flag so many times more. Linear in the number.
fn more_flags(made: &mut Vec<bool>, flag: bool, number: u32) -> Result<(), Memory>
    ensures { IfOk result (λ done. made.new.items ≡ made.old.items ++ replicate number flag) }
{
    for _ in 0..number {
        made.push(flag)?;
    }
    Ok(())
}

/// The normal axioms that were made, with their numbers in range, and the ranks of the atoms. Constant time.
fn packed(maker: Maker, named: Vec<bool>, ranks: Vec<u32>, roles: u32) -> Normal
    requires flags { length named.items ≡ maker.next }
    requires n1_within { IsTrue (list_all (has_atoms_below maker.next) maker.n1.items) }
    requires n2_within { IsTrue (list_all (is_triple_below maker.next roles) maker.n2.items) }
    requires n3_within { IsTrue (list_all (is_triple_below maker.next roles) maker.n3.items) }
    requires n4_within { IsTrue (list_all (is_triple_below maker.next roles) maker.n4.items) }
    requires n5_within { IsTrue (list_all (has_roles_below roles) maker.n5.items) }
    ensures atoms { result.atoms ≡ maker.next }
    ensures named { result.named ≡ named.items }
    ensures roles { result.roles ≡ roles }
    ensures n1 { result.n1 ≡ maker.n1.items }
    ensures n2 { result.n2 ≡ maker.n2.items }
    ensures n3 { result.n3 ≡ maker.n3.items }
    ensures n4 { result.n4 ≡ maker.n4.items }
    ensures n5 { result.n5 ≡ maker.n5.items }
{
    let Maker {
        next,
        n1,
        n2,
        n3,
        n4,
        n5,
    } = maker;
    Normal {
        atoms: next,
        named: Seq::of(named),
        ranks: Seq::of(ranks),
        roles,
        n1: Seq::of(n1),
        n2: Seq::of(n2),
        n3: Seq::of(n3),
        n4: Seq::of(n4),
        n5: Seq::of(n5),
    }
}
