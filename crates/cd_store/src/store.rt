//! The store of a context.
ghost use Rattle.std.specs.Prelude.{◌≡◌, ◌<◌, ◌↔◌, ◌∷◌, ◌++◌, ◌⊎◌, ◌^◌, ℕ, List, [], length, map, true, IfOk, IfSome, OnOk, OnErr};
ghost use Rattle.cd_base.specs.Keys.{code};
ghost use Rattle.cd_base.specs.Lists.{OneOf};
ghost use Rattle.cd_clause.specs.declared.elem.Elem.{Elem};
ghost use Rattle.cd_clause.specs.declared.elem.Elem.TheVariants.{Exist, Plain};
ghost use Rattle.cd_store.specs.Filing.{AreFiled, HasChosen, HasWeakerUnder};
ghost use Rattle.cd_store.specs.LookUps.{Gains, HasElem, HasExistential};
ghost use Rattle.cd_store.specs.Sift.{IsCovered, Leaves, Sifts};
ghost use Rattle.cd_store.specs.Store.{IsStore, IsOutcome};

use crate::coverings::{find_covering, is_among};
use crate::filing::Filing;
use cd_base::{Atom, Key, Lit, Memory, Role};
use cd_clause::{Clause, Elem};
use std::alloc::Global;
use std::marker::Model;

/// Of so many dead numbers at most, each live one is compared with each; of more, the clauses are compared once more.
const FEW: usize = 8;

/// What adding a clause came to.
#[derive(Clone, Copy, Debug, PartialEq, Eq)]
pub enum Added {
    /// The clause is stored under this number, and live.
    New(usize),
    /// The live clause of this number, the least such, covers it. Nothing changed.
    Held(usize),
}

/// The clauses of one context. Contracts see its `StoreState`.
#[derive(Debug, Drop)]
pub struct Store {
    clauses: Vec<Clause>,
    live: Vec<usize>,
    filing: Filing,
}

impl Model for Store {
    ghost use Rattle.cd_store.specs.Filing.{AreFiled};
    ghost use Rattle.cd_store.specs.Store.{StoreState, IsStore};

    ghost Value = { StoreState };

    ghost view = { λ s. record { clauses = s.clauses.items; live = s.live.items } };

    ghost invariant = { λ s. IsStore s.clauses.items s.live.items
        × AreFiled s.filing s.clauses.items };
}

impl Store {
    /// A store without clauses. Takes no memory and constant time.
    pub fn new(alloc: Global) -> Store
        ensures { result ≡ record { clauses = []; live = [] } }
    {
        Store {
            clauses: Vec::new(alloc),
            live: Vec::new(alloc),
            filing: Filing::new(alloc),
        }
    }

    /// All clauses, live or dead, by number. No clause covers one of a higher number. Constant time.
    pub fn clauses(&self) -> &[Clause]
        ensures value { result.now ≡ self.now.clauses }
        ensures store { IsStore self.now.clauses self.now.live }
    {
        &self.clauses
    }

    /// The numbers of the live clauses, ascending. Every clause that was ever added is covered by a live one, and no live clause covers
    /// another. Constant time.
    pub fn live(&self) -> &[usize]
        ensures value { result.now ≡ self.now.live }
        ensures store { IsStore self.now.clauses self.now.live }
    {
        &self.live
    }

    /// Whether the number is that of a live clause. Logarithmic in the live ones.
    pub fn is_live(&self, number: usize) -> bool
        ensures value { (result ≡ true) ↔ OneOf number self.now.live }
        ensures fits { length self.now.clauses < 2 ^ 64 }
    {
        is_among(&self.live, number)
    }

    /// Stores the clause under the next number and makes it live, and makes the live clauses that it covers dead; or changes nothing, where
    /// a live clause covers it. For each element of the clause a look-up, or one for each literal of its key; as many for the last once
    /// more; for each stored clause found by them, logarithmic in the live ones, and a walk over both where that one is live; what
    /// `Filing::file` costs; and where clauses die, a walk over the numbers of the live ones, or, where many die at once, over the clause
    /// and each live one.
    pub fn add(&mut self, alloc: Global, clause: Clause) -> Result<Added, Memory>
        ensures ok { IfOk result (λ a. IsOutcome self.old clause self.new a) }
        ensures err { OnErr result (self.new ≡ self.old) }
        ensures store { IsStore self.new.clauses self.new.live }
    {
        if let Some(i) = find_covering(&self.filing, &self.clauses, &self.live, &clause) {
            return Ok(Added::Held(i));
        }
        let number = self.clauses.len();
        self.clauses.reserve(1)?;
        self.filing.file(alloc, number, &clause)?;
        replace(
            alloc,
            &self.filing,
            &self.clauses,
            &mut self.live,
            &clause,
            number,
        )?;
        self.clauses.push_reserved(clause);
        Ok(Added::New(number))
    }

    /// The numbers of the stored clauses, live or dead, that have the atom, lent: each is in one of these two lists, and maybe others. Two
    /// look-ups.
    pub fn with_atom(&self, atom: Atom) -> (&[usize], &[usize])
        ensures { (n : ℕ) → HasElem self.now.clauses (Plain atom) n
            → OneOf n result.0.now ⊎ OneOf n result.1.now }
    {
        (
            self.filing.ending_in_atom(atom),
            self.filing.going_on_from_atom(atom),
        )
    }

    /// Appends the number of each stored clause, live or dead, that has the atom, and maybe others. Two look-ups, and linear in what is
    /// appended.
    pub fn push_with_atom(&self, atom: Atom, found: &mut Vec<usize>) -> Result<(), Memory>
        ensures { OnOk result (Gains (HasElem self.now.clauses (Plain atom)) found.old.items
            found.new.items) }
    {
        found.extend_from_slice(self.filing.ending_in_atom(atom))?;
        found.extend_from_slice(self.filing.going_on_from_atom(atom))?;
        Ok(())
    }

    /// Appends the number of each stored clause, live or dead, that has this existential, and maybe others. Two look-ups, and linear in the
    /// key and in what is appended.
    pub fn push_with_existential(
        &self,
        role: Role,
        key: &Key,
        found: &mut Vec<usize>,
    ) -> Result<(), Memory>
        ensures { OnOk result (Gains (HasElem self.now.clauses (Exist role key.now)) found.old.items
            found.new.items) }
    {
        found.extend_from_slice(self.filing.ending_in_existential(role, key))?;
        found.extend_from_slice(self.filing.going_on_from_existential(role, key))?;
        Ok(())
    }

    /// Appends the number of each stored clause, live or dead, that has an existential, and maybe others. One look-up, and linear in what
    /// is appended.
    pub fn push_with_existentials(&self, found: &mut Vec<usize>) -> Result<(), Memory>
        ensures { OnOk result (Gains (HasExistential self.now.clauses) found.old.items
            found.new.items) }
    {
        found.extend_from_slice(self.filing.with_existentials())?;
        Ok(())
    }

    /// Numbers, those of all atoms of stored clauses among them, each at most four times, and others, above those of atoms; `None` where
    /// there are more than `at_most` of them, which is a matter of cost alone. Linear in them.
    pub fn atom_numbers(&self, alloc: Global, at_most: usize) -> Result<Option<Vec<u64>>, Memory>
        ensures { IfOk result (λ some.
            IfSome some (λ numbers. (a n : ℕ) → HasElem self.now.clauses (Plain a) n
            → OneOf a numbers.items)) }
    {
        if self.filing.count() > at_most {
            return Ok(None);
        }
        let mut numbers = Vec::new(alloc);
        self.filing.push_numbers(&mut numbers)?;
        Ok(Some(numbers))
    }
}

/// Makes the live clauses that the clause covers dead, and this number live. Costs what `live_covered` does, and what `sift` does only
/// where one of them is live. After `Memory` nothing has changed.
fn replace(
    alloc: Global,
    filing: &Filing,
    clauses: &[Clause],
    live: &mut Vec<usize>,
    clause: &Clause,
    number: usize,
) -> Result<(), Memory>
    requires store { IsStore clauses.now live.old.items }
    requires filed { AreFiled filing.now clauses.now }
    ensures ok { OnOk result ((after : List ℕ) × Sifts clauses.now clause.now live.old.items after
        × (live.new.items ≡ after ++ number ∷ [])) }
    ensures err { OnErr result (live.new.items ≡ live.old.items) }
{
    let dead = live_covered(alloc, filing, clauses, live.as_slice(), clause)?;
    if dead.as_slice().is_empty() {
        live.push(number)?;
        return Ok(());
    }
    let mut after = sift(alloc, clauses, live.as_slice(), clause, dead.as_slice())?;
    after.push(number)?;
    *live = after;
    Ok(())
}

/// The live numbers whose clause the clause covers. Costs what `push_weaker` does.
fn live_covered(
    alloc: Global,
    filing: &Filing,
    clauses: &[Clause],
    live: &[usize],
    clause: &Clause,
) -> Result<Vec<usize>, Memory>
    requires store { IsStore clauses.now live.now }
    requires filed { AreFiled filing.now clauses.now }
    ensures { IfOk result (λ dead. (n : ℕ) → OneOf n dead.items
        ↔ IsCovered clauses.now live.now clause.now n) }
{
    let mut dead = Vec::new(alloc);
    match clause.elems().last() {
        None => push_covered(clauses, live, clause, live, &mut dead)?,
        Some(last) => push_weaker(filing, clauses, live, clause, last, &mut dead)?,
    }
    Ok(dead)
}

/// Appends those of the live clauses with an element that this one is at least as strong as that the clause covers. Two look-ups, or one
/// for each literal of its key and one; and for each clause found by them, the cost of `is_covered`.
fn push_weaker(
    filing: &Filing,
    clauses: &[Clause],
    live: &[usize],
    clause: &Clause,
    elem: &Elem,
    found: &mut Vec<usize>,
) -> Result<(), Memory>
    requires { IsStore clauses.now live.now }
    ensures every { OnOk result (Gains (λ n. HasWeakerUnder filing.now elem.now n
        × IsCovered clauses.now live.now clause.now n) found.old.items found.new.items) }
    ensures only { OnOk result ((n : ℕ) → OneOf n found.new.items
        → OneOf n found.old.items ⊎ IsCovered clauses.now live.now clause.now n) }
{
    match elem {
        Elem::Plain(atom) => {
            push_covered(clauses, live, clause, filing.ending_in_atom(*atom), found)?;
            push_covered(
                clauses,
                live,
                clause,
                filing.going_on_from_atom(*atom),
                found,
            )
        }
        Elem::Exist(role, key) => {
            push_covered(clauses, live, clause, filing.with_empty_keys(), found)?;
            push_smaller(filing, clauses, live, clause, *role, key.lits(), found)
        }
    }
}

/// Appends those of the live clauses with an existential of the role, filed under one of these literals of its key, that the clause covers.
/// One look-up for each literal; and for each clause found by them, the cost of `is_covered`.
fn push_smaller(
    filing: &Filing,
    clauses: &[Clause],
    live: &[usize],
    clause: &Clause,
    role: Role,
    lits: &[Lit],
    found: &mut Vec<usize>,
) -> Result<(), Memory>
    requires { IsStore clauses.now live.now }
    ensures every { OnOk result (Gains (λ n. HasChosen filing.now role (map code lits.now) n
        × IsCovered clauses.now live.now clause.now n) found.old.items found.new.items) }
    ensures only { OnOk result ((n : ℕ) → OneOf n found.new.items
        → OneOf n found.old.items ⊎ IsCovered clauses.now live.now clause.now n) }
{
    'lits: for i in 0..lits.len() {
        push_covered(
            clauses,
            live,
            clause,
            filing.chosen_by(role, &lits[i]),
            found,
        )?;
    }
    Ok(())
}

/// Appends those of these numbers that are those of live clauses that the clause covers. For each logarithmic in the live numbers, and one
/// walk over both clauses.
fn push_covered(
    clauses: &[Clause],
    live: &[usize],
    clause: &Clause,
    numbers: &[usize],
    found: &mut Vec<usize>,
) -> Result<(), Memory>
    requires { IsStore clauses.now live.now }
    ensures every { OnOk result (Gains (λ n. OneOf n numbers.now
        × IsCovered clauses.now live.now clause.now n) found.old.items found.new.items) }
    ensures only { OnOk result ((n : ℕ) → OneOf n found.new.items
        → OneOf n found.old.items ⊎ IsCovered clauses.now live.now clause.now n) }
{
    'numbers: for i in 0..numbers.len() {
        let number = numbers[i];
        if is_covered(clauses, live, clause, number) {
            found.push(number)?;
        }
    }
    Ok(())
}

/// Whether the number is live and the clause covers its clause. Logarithmic in the live numbers, and one walk over both clauses.
fn is_covered(clauses: &[Clause], live: &[usize], clause: &Clause, number: usize) -> bool
    requires { IsStore clauses.now live.now }
    ensures { (result ≡ true) ↔ IsCovered clauses.now live.now clause.now number }
{
    if !is_among(live, number) {
        return false;
    }
    clause.covers(&clauses[number])
}

/// The live numbers that are not among the dead ones, which are all live ones that the clause covers. Costs `is_dead` for each.
fn sift(
    alloc: Global,
    clauses: &[Clause],
    live: &[usize],
    clause: &Clause,
    dead: &[usize],
) -> Result<Vec<usize>, Memory>
    requires range { (n : ℕ) → OneOf n live.now → n < length clauses.now }
    requires dead { (n : ℕ) → OneOf n dead.now ↔ IsCovered clauses.now live.now clause.now n }
    ensures { IfOk result (λ after. Leaves dead.now live.now after.items) }
{
    let mut after = Vec::with_capacity(alloc, live.len())?;
    'numbers: for n in live {
        let at = *n;
        if !is_dead(clauses, live, clause, dead, at) {
            after.push(at)?;
        }
    }
    Ok(after)
}

/// Whether a live number is among the dead ones. A look at each of these where they are few, and else a walk over both clauses.
fn is_dead(
    clauses: &[Clause],
    live: &[usize],
    clause: &Clause,
    dead: &[usize],
    number: usize,
) -> bool
    requires range { number < length clauses.now }
    requires live { OneOf number live.now }
    requires dead { (n : ℕ) → OneOf n dead.now ↔ IsCovered clauses.now live.now clause.now n }
    ensures { (result ≡ true) ↔ OneOf number dead.now }
{
    if dead.len() <= FEW {
        return dead.contains(&number);
    }
    clause.covers(&clauses[number])
}
