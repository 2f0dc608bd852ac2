//! The clauses that are stored, by what they have.
ghost use Rattle.std.specs.Prelude.{◌≡◌, ◌<◌, ◌⊎◌, ◌∷◌, ℕ, [], cond, length, map, slice_index_or, true, OnOk};
ghost use Rattle.cd_base.specs.Keys.{code};
ghost use Rattle.cd_base.specs.Lists.{OneOf};
ghost use Rattle.cd_clause.specs.Covering.{is_as_strong};
ghost use Rattle.cd_clause.specs.declared.elem.Elem.{Elem};
ghost use Rattle.cd_clause.specs.declared.elem.Elem.TheVariants.{Exist, Plain};
ghost use Rattle.cd_store.specs.Filing.{chosen_by, empty_keys, ends_in, existentials, filed_under, goes_on_from, keys_of, listed, paired, with_literal, HasList, IsFiled, IsUnder, IsUnderKey, IsUnderLast, KeepsFiled};
ghost use Rattle.cd_store.specs.LookUps.{Gains};

use cd_base::{Atom, Key, Lit, Memory, Role};
use cd_clause::{Clause, Elem};
use indexmap::IndexMap;
use smallvec::SmallVec;
use std::alloc::Global;
use std::marker::Model;

/// The key of the list of all clauses with an existential, above those of the lists of elements and of literals.
const EXISTENTIALS: u64 = 9_223_372_036_854_775_808;

/// The key of the list of all clauses with an existential to the empty key.
const EMPTY_KEYS: u64 = 9_223_372_036_854_775_809;

/// The numbers of clauses by their elements: two lists for each element, of the clauses that end in it, and of those in which another
/// follows it. One list more has the clauses with an existential.
///
/// A clause that covers another ends in an element that is at least as strong as one of the other's. So it is found by that one: in the
/// list of the atom, or in those of each literal of the smaller key, for which clauses that end in an existential are filed under every
/// literal of its key. A clause that another covers has an element that the other's last is at least as strong as: the atom, in one of its
/// two lists, or an existential whose key, and so any one literal of it, is within the larger key. One literal of each key is chosen for
/// that, the rarest when the clause comes.
///
/// Elements are told apart by a number alone, which some of them may share: what is filed under an element is where a clause with it is
/// found, and each clause that is found is still to be compared. A number stays filed when its clause dies.
#[derive(Debug, Drop)]
pub(crate) struct Filing {
    by_element: IndexMap<u64, SmallVec<usize, 2>>,
}

impl Model for Filing {
    ghost use Rattle.std.specs.Prelude.{ℕ, List, map};

    ghost Value = { List (ℕ × List ℕ) };

    ghost view = { λ f. map (λ e. (e.0, e.1.items)) f.by_element.entries };
}

impl Filing {
    /// Nothing is filed. Takes no memory and constant time.
    pub(crate) fn new(alloc: Global) -> Filing
        ensures { result ≡ [] }
    {
        Filing {
            by_element: IndexMap::new(alloc),
        }
    }

    /// Files the number of a clause under each of its elements. A look-up for each; for an existential three, and where its key has more
    /// than one literal one for each; and for the last one more for each literal. Linear in the keys. After `Memory` the number is filed
    /// under some of them.
    pub(crate) fn file(
        &mut self,
        alloc: Global,
        number: usize,
        clause: &Clause,
    ) -> Result<(), Memory>
        ensures filed { OnOk result (IsFiled self.new number clause.now) }
        ensures kept { KeepsFiled self.old self.new }
    {
        let mut rest = clause.elems();
        'elems: while let [elem, others @ ..] = rest {
            self.file_elem(alloc, elem, others.is_empty(), number)?;
            rest = others;
        }
        Ok(())
    }

    /// Files the number of a clause under one of its elements.
    fn file_elem(
        &mut self,
        alloc: Global,
        elem: &Elem,
        is_last: bool,
        number: usize,
    ) -> Result<(), Memory>
        ensures under { OnOk result (IsUnder self.new number
            (cond is_last (ends_in elem.now) (goes_on_from elem.now)) elem.now) }
        ensures last { OnOk result (is_last ≡ true → IsUnderLast self.new number elem.now) }
        ensures kept { KeepsFiled self.old self.new }
    {
        self.file_under(alloc, list_of(elem, is_last), number)?;
        match elem {
            Elem::Plain(_) => Ok(()),
            Elem::Exist(role, key) => {
                self.file_existential(alloc, *role, key, number)?;
                if is_last {
                    return self.file_literals(alloc, *role, key, number);
                }
                Ok(())
            }
        }
    }

    /// Files the number of a clause with an existential among all such, and under its key.
    fn file_existential(
        &mut self,
        alloc: Global,
        role: Role,
        key: &Key,
        number: usize,
    ) -> Result<(), Memory>
        ensures among { OnOk result (OneOf number (listed self.new existentials)) }
        ensures under { OnOk result (IsUnderKey self.new role key.now number) }
        ensures kept { KeepsFiled self.old self.new }
    {
        self.file_under(alloc, EXISTENTIALS, number)?;
        let list = self.list_under_key(role, key);
        self.file_under(alloc, list, number)
    }

    /// The list of the rarest literal of the key, or that of the empty key. A look-up for each literal, and none where there is one.
    fn list_under_key(&self, role: Role, key: &Key) -> u64
        ensures { (result ≡ empty_keys)
            ⊎ ((l : ℕ) × OneOf l key.now × (result ≡ chosen_by role l)) }
    {
        match key.lits() {
            [] => EMPTY_KEYS,
            [first, others @ ..] => list_of_chosen(role, &self.rarest(role, *first, others)),
        }
    }

    /// The one of these literals that the fewest clauses were filed under as having it in the key of their last element. A look-up for
    /// each, and none where there is one.
    fn rarest(&self, role: Role, first: Lit, others: &[Lit]) -> Lit
        ensures { OneOf (code result) (code first ∷ map code others.now) }
    {
        if others.is_empty() {
            return first;
        }
        let mut rarest = first;
        let mut fewest = self.with_lit(role, &first).len();
        let mut rest = others;
        'lits: while let [lit, later @ ..] = rest {
            let count = self.with_lit(role, lit).len();
            rarest = rarer(rarest, fewest, *lit, count);
            fewest = fewest.min(count);
            rest = later;
        }
        rarest
    }

    /// Files the number of a clause that ends in an existential under each literal of its key. A look-up for each.
    fn file_literals(
        &mut self,
        alloc: Global,
        role: Role,
        key: &Key,
        number: usize,
    ) -> Result<(), Memory>
        ensures filed { OnOk result ((l : ℕ) → OneOf l key.now
            → OneOf number (listed self.new (with_literal role l))) }
        ensures kept { KeepsFiled self.old self.new }
    {
        let mut rest = key.lits();
        'lits: while let [lit, others @ ..] = rest {
            self.file_under(alloc, list_of_literal(role, lit), number)?;
            rest = others;
        }
        Ok(())
    }

    /// Files the number of a clause under this key. One look-up.
    fn file_under(&mut self, alloc: Global, key: u64, number: usize) -> Result<(), Memory>
        ensures filed { OnOk result (OneOf number (listed self.new key)) }
        ensures kept { KeepsFiled self.old self.new }
    {
        match self.by_element.get_mut(&key) {
            Some(list) => {
                list.push(number)?;
            }
            None => {
                return self.file_first(alloc, key, number);
            }
        }
        Ok(())
    }

    /// Files the number of a clause under a key that has no list yet. One look-up.
    fn file_first(&mut self, alloc: Global, key: u64, number: usize) -> Result<(), Memory>
        requires { listed self.old key ≡ [] }
        ensures filed { OnOk result (OneOf number (listed self.new key)) }
        ensures kept { KeepsFiled self.old self.new }
    {
        let mut list = SmallVec::new(alloc);
        list.push(number)?;
        self.by_element.insert(key, list)?;
        Ok(())
    }

    /// The numbers of clauses whose last element is at least as strong as this one, lent: they are among these. One look-up, or one for
    /// each literal of the element's key.
    pub(crate) fn ending_as_strong(&self, elem: &Elem) -> &[usize]
        ensures { (e : Elem) (n : ℕ) → is_as_strong e elem.now ≡ true → IsUnderLast self.now n e
            → OneOf n result.now }
    {
        match elem {
            Elem::Plain(atom) => self.ending_in_atom(*atom),
            Elem::Exist(role, key) => self.with_literals(*role, key),
        }
    }

    /// The shortest of the lists of the literals of the key, lent: the numbers of clauses that end in an existential of the role to a key
    /// that has all of them are among these. A look-up for each. Of no literal all clauses with an existential.
    fn with_literals(&self, role: Role, key: &Key) -> &[usize]
        ensures { (n : ℕ) → ((l : ℕ) → OneOf l key.now
            → OneOf n (listed self.now (with_literal role l)))
            → OneOf n (listed self.now existentials) → OneOf n result.now }
    {
        match key.lits() {
            [] => self.with_existentials(),
            [lit, others @ ..] => self.shortest(role, others, self.with_lit(role, lit)),
        }
    }

    /// The shortest of this list and those of the literals, lent. A look-up for each.
    fn shortest<'a>(&'a self, role: Role, lits: &[Lit], list: &'a [usize]) -> &'a [usize]
        ensures { (n : ℕ) → OneOf n list.now → ((l : ℕ) → OneOf l (map code lits.now)
            → OneOf n (listed self.now (with_literal role l))) → OneOf n result.now }
    {
        let mut least = list;
        let mut rest = lits;
        'lits: while let [lit, others @ ..] = rest {
            least = shorter(least, self.with_lit(role, lit));
            rest = others;
        }
        least
    }

    /// The numbers of clauses that end in an existential of the role to a key with the literal, lent: they are among these. One look-up.
    fn with_lit(&self, role: Role, lit: &Lit) -> &[usize]
        ensures { result.now ≡ listed self.now (with_literal role (code lit.now)) }
    {
        self.list(list_of_literal(role, lit))
    }

    /// The numbers of clauses with an existential of the role that were filed under this literal of its key, lent: they are among these.
    /// One look-up.
    pub(crate) fn chosen_by(&self, role: Role, lit: &Lit) -> &[usize]
        ensures { result.now ≡ listed self.now (chosen_by role (code lit.now)) }
    {
        self.list(list_of_chosen(role, lit))
    }

    /// The numbers of clauses with an existential to the empty key, lent: they are among these. One look-up.
    pub(crate) fn with_empty_keys(&self) -> &[usize]
        ensures { result.now ≡ listed self.now empty_keys }
    {
        self.list(EMPTY_KEYS)
    }

    /// The numbers of clauses that end in this atom, lent: they are among these. One look-up.
    pub(crate) fn ending_in_atom(&self, atom: Atom) -> &[usize]
        ensures { result.now ≡ listed self.now (ends_in (Plain atom)) }
    {
        self.list((atom.number() as u64) * 4)
    }

    /// The numbers of clauses in which another element follows this atom, lent: they are among these. One look-up.
    pub(crate) fn going_on_from_atom(&self, atom: Atom) -> &[usize]
        ensures { result.now ≡ listed self.now (goes_on_from (Plain atom)) }
    {
        self.list((atom.number() as u64) * 4 + 1)
    }

    /// As `ending_in_atom`, for an existential. One look-up, and linear in the key.
    pub(crate) fn ending_in_existential(&self, role: Role, key: &Key) -> &[usize]
        ensures { result.now ≡ listed self.now (ends_in (Exist role key.now)) }
    {
        self.list(number_of_existential(role, key) * 4)
    }

    /// As `going_on_from_atom`, for an existential. One look-up, and linear in the key.
    pub(crate) fn going_on_from_existential(&self, role: Role, key: &Key) -> &[usize]
        ensures { result.now ≡ listed self.now (goes_on_from (Exist role key.now)) }
    {
        self.list(number_of_existential(role, key) * 4 + 1)
    }

    /// The numbers of clauses with an existential, lent: they are among these. One look-up.
    pub(crate) fn with_existentials(&self) -> &[usize]
        ensures { result.now ≡ listed self.now existentials }
    {
        self.list(EXISTENTIALS)
    }

    /// How many lists there are. Constant time.
    pub(crate) fn count(&self) -> usize
        ensures { result ≡ length (keys_of self.now) }
    {
        self.by_element.len()
    }

    /// The key of one of the lists, in the order in which they came. Constant time.
    fn key_at(&self, i: usize) -> u64
        requires { i < length (keys_of self.now) }
        ensures { result ≡ slice_index_or (keys_of self.now) i 0 }
    {
        match self.by_element.get_index(i) {
            Some(entry) => *entry.0,
            // not reached
            None => 0,
        }
    }

    /// Appends, for each list of an element, the number under which that is filed, and others, above those of atoms. Linear in the lists.
    pub(crate) fn push_numbers(&self, numbers: &mut Vec<u64>) -> Result<(), Memory>
        ensures { OnOk result (Gains (HasList self.now) numbers.old.items numbers.new.items) }
    {
        'lists: for i in 0..self.count() {
            numbers.push(self.key_at(i) / 4)?;
        }
        Ok(())
    }

    /// The list under this key, lent. One look-up.
    fn list(&self, key: u64) -> &[usize]
        ensures { result.now ≡ listed self.now key }
    {
        match self.by_element.get(&key) {
            Some(list) => list.as_slice(),
            None => &[],
        }
    }
}

/// The list for clauses that end in the element, or that for clauses in which another follows it. Linear in the element's key.
fn list_of(elem: &Elem, is_last: bool) -> u64
    ensures { result ≡ cond is_last (ends_in elem.now) (goes_on_from elem.now) }
{
    let number = number_of(elem) * 4;
    if is_last { number } else { number + 1 }
}

/// The number under which an element is filed: that of an atom, or one above those, of the role and the key. Linear in the key.
fn number_of(elem: &Elem) -> u64
    ensures number { result ≡ filed_under elem.now }
    ensures range { result < 1_099_511_627_776 }
{
    match elem {
        Elem::Plain(atom) => atom.number() as u64,
        Elem::Exist(role, key) => number_of_existential(*role, key),
    }
}

/// The number under which an existential is filed. Linear in the key.
fn number_of_existential(role: Role, key: &Key) -> u64
    ensures number { result ≡ filed_under (Exist role key.now) }
    ensures range { result < 1_099_511_627_776 }
{
    4_294_967_296 + (role.0 as u64) * 31 + (key.place(4_294_967_295) as u64)
}

/// The list for clauses that end in an existential of the role to a key with the literal. Constant time.
fn list_of_literal(role: Role, lit: &Lit) -> u64
    ensures { result ≡ with_literal role (code lit.now) }
{
    paired(role, lit) * 4 + 2
}

/// The list for clauses with an existential of the role that are filed under this literal of its key. Constant time.
fn list_of_chosen(role: Role, lit: &Lit) -> u64
    ensures { result ≡ chosen_by role (code lit.now) }
{
    paired(role, lit) * 4 + 3
}

/// One number for a role and a literal. Constant time.
fn paired(role: Role, lit: &Lit) -> u64
    ensures number { result ≡ paired role (code lit.now) }
    ensures range { result < 2_305_843_009_213_693_952 }
{
    (1 + (role.0 as u64) % 134_217_728) * 8_589_934_592 + lit.code()
}

/// The shorter of two lists. Constant time.
fn shorter<'a>(left: &'a [usize], right: &'a [usize]) -> &'a [usize]
    ensures { (result.now ≡ left.now) ⊎ (result.now ≡ right.now) }
{
    if left.len() <= right.len() {
        left
    } else {
        right
    }
}

/// Of two literals the one that fewer clauses have, and the first where as many have the one as the other. Constant time.
fn rarer(left: Lit, of_left: usize, right: Lit, of_right: usize) -> Lit
    ensures { (result ≡ left) ⊎ (result ≡ right) }
{
    if of_left <= of_right { left } else { right }
}
