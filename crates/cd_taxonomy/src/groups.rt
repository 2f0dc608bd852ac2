//! A taxonomy: groups of equivalent classes, and the direct superclasses of each.
use cd_base::Seq;

/// Classes that are equivalent to each other, with the groups right above them.
///
/// A direct superclass is a group strictly above this one, with no group strictly between. This is the project's own definition,
/// which keeps owl:Thing and owl:Nothing as classes like any other.
#[derive(Debug, Drop)]
pub struct Group {
    /// The classes by number: the representative first, then the others in the order of their names' bytes.
    pub members: Seq<u32>,
    /// The numbers of the groups that are direct superclasses, ascending.
    pub parents: Seq<u32>,
}

/// What the classes of a document are to each other: the answer of `taxonomy`, which `text` prints.
#[derive(Debug, Drop)]
pub struct Taxonomy {
    /// The groups of all classes, in the order of the bytes of their representatives' names. A group's number is its index here.
    pub groups: Seq<Group>,
}

/// How much a taxonomy says: the answer of `summary`, which `summary_text` prints.
#[derive(Clone, Copy, Debug, PartialEq, Eq)]
pub struct Summary {
    /// The named classes, with owl:Thing and owl:Nothing.
    pub names: u64,
    /// The groups of equivalent classes.
    pub groups: u64,
    /// The classes other than owl:Nothing that can have no member.
    pub unsatisfiable: u64,
    /// The `SubClassOf` lines that `text` prints.
    pub links: u64,
}
