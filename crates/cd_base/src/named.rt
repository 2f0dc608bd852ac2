//! What is told of each atom: whether it is a class of the document, and its rank.
ghost use Rattle.std.specs.Prelude.{◌≡◌};
ghost use Rattle.cd_base.specs.Keys.{atom_rank, is_named};

use crate::atom::Atom;
use crate::normal::Normal;

impl Normal {
    /// Whether the atom is a class of the document. Constant time.
    pub fn is_named(&self, atom: Atom) -> bool
        ensures { result ≡ is_named self.now atom }
    {
        match self.named.items().get(atom.0 as usize) {
            Some(named) => *named,
            None => false,
        }
    }

    /// The rank of the atom, 0 where none is told. Constant time.
    pub fn rank(&self, atom: Atom) -> u32
        ensures { result ≡ atom_rank self.now atom }
    {
        match self.ranks.items().get(atom.0 as usize) {
            Some(rank) => *rank,
            None => 0,
        }
    }
}
