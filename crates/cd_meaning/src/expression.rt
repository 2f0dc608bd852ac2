use cd_base::Seq;
use sqlite_items::{Boxed, Items};

/// A class expression. Classes and roles go by number. Structural Specification, section 8.
#[derive(Debug, Drop)]
pub enum Expr {
    /// A named class; 0 is owl:Thing and 1 owl:Nothing.
    Name(u32),
    /// `ObjectIntersectionOf`.
    Meet(Items<Expr>),
    /// `ObjectUnionOf`.
    Join(Items<Expr>),
    /// `ObjectComplementOf`.
    Minus(Boxed<Expr>),
    /// `ObjectSomeValuesFrom`.
    SomeOf(u32, Boxed<Expr>),
    /// `ObjectAllValuesFrom`.
    AllOf(u32, Boxed<Expr>),
}

/// An axiom on classes or roles. Structural Specification, sections 9.1 and 9.2.
#[derive(Debug, Drop)]
pub enum Axiom {
    /// `SubClassOf`.
    SubClass(Expr, Expr),
    /// `EquivalentClasses`.
    SameClasses(Seq<Expr>),
    /// `DisjointClasses`.
    Disjoint(Seq<Expr>),
    /// `DisjointUnion`.
    DisjointUnion(u32, Seq<Expr>),
    /// `SubObjectPropertyOf`.
    SubRole(u32, u32),
    /// `EquivalentObjectProperties`.
    SameRoles(Seq<u32>),
    /// `ObjectPropertyDomain`.
    Domain(u32, Expr),
    /// `ObjectPropertyRange`.
    Range(u32, Expr),
}
