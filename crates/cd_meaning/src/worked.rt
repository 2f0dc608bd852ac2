//! What the definitions say of examples, written by hand: of a family of two, and of small relations between classes. Each is on the
//! contract of a function that does nothing.
ghost use Rattle.std.specs.Prelude.{◌≡◌, [], ◌∷◌, codes};
ghost use Rattle.cd_meaning.specs.Iri.{reserved_classes};
ghost use Rattle.cd_meaning.specs.Text.{text};
ghost use Rattle.cd_meaning.specs.Worked.{ann, bob, person_class, parent_class, owl_thing, owl_nothing, person, parent, child, has_child, has_kid, knows, with_child, elements_of, IsTrueAndFalse};
ghost use Rattle.cd_meaning.specs.WorkedTexts.{up_to_b, up_to_c, at_least, one_below, chain, equivalent, inconsistent, of_lines};

use crate::expression::{Axiom, Expr};

/// What the definitions give as the elements of each form of class expression, in a family of two.
pub fn worked_members()
    ensures thing { elements_of owl_thing ≡ ann ∷ bob ∷ [] }
    ensures nothing { elements_of owl_nothing ≡ [] }
    ensures class { elements_of parent ≡ ann ∷ [] }
    ensures intersection { elements_of (Expr.Meet (person ∷ parent ∷ [])) ≡ ann ∷ [] }
    ensures union { elements_of (Expr.Join (parent ∷ child ∷ [])) ≡ ann ∷ bob ∷ [] }
    ensures complement { elements_of (Expr.Minus parent) ≡ bob ∷ [] }
    ensures existential { elements_of (Expr.SomeOf has_child person) ≡ ann ∷ [] }
    ensures universal { elements_of (Expr.AllOf has_child parent) ≡ bob ∷ [] }
{}

/// Of each form of axiom one that the definitions make true in the family, and one that they make false.
pub fn worked_truths()
    ensures sub_class { IsTrueAndFalse (Axiom.SubClass parent person)
        (Axiom.SubClass person parent) }
    ensures same_classes { IsTrueAndFalse (Axiom.SameClasses (parent ∷ with_child ∷ []))
        (Axiom.SameClasses (parent ∷ person ∷ [])) }
    ensures disjoint { IsTrueAndFalse (Axiom.Disjoint (parent ∷ child ∷ []))
        (Axiom.Disjoint (parent ∷ person ∷ [])) }
    ensures disjoint_trees { IsTrueAndFalse (Axiom.Disjoint (parent ∷ parent ∷ []))
        (Axiom.Disjoint (parent ∷ with_child ∷ [])) }
    ensures disjoint_union { IsTrueAndFalse (Axiom.DisjointUnion person_class (parent ∷ child ∷ []))
        (Axiom.DisjointUnion person_class (parent ∷ person ∷ [])) }
    ensures whole_union { IsTrueAndFalse
        (Axiom.DisjointUnion parent_class (parent ∷ owl_nothing ∷ []))
        (Axiom.DisjointUnion person_class (parent ∷ owl_nothing ∷ [])) }
    ensures sub_role { IsTrueAndFalse (Axiom.SubRole has_child knows)
        (Axiom.SubRole knows has_child) }
    ensures same_roles { IsTrueAndFalse (Axiom.SameRoles (has_child ∷ has_kid ∷ []))
        (Axiom.SameRoles (has_child ∷ knows ∷ [])) }
    ensures domain { IsTrueAndFalse (Axiom.Domain has_child parent) (Axiom.Domain has_child child) }
    ensures range { IsTrueAndFalse (Axiom.Range has_child child) (Axiom.Range has_child parent) }
{}

/// The texts of small relations: no class, one below another, a chain, equivalent classes, and an inconsistent document.
pub fn worked_texts()
    ensures no_class { text reserved_classes at_least
        ≡ of_lines (codes "Ontology(" ∷ codes ")" ∷ []) }
    ensures one_below { text up_to_b one_below
        ≡ of_lines (codes "Ontology(" ∷ codes "SubClassOf(<x:A> <x:B>)"
        ∷ codes "SubClassOf(<x:B> <http://www.w3.org/2002/07/owl#Thing>)" ∷ codes ")" ∷ []) }
    ensures chain { text up_to_c chain
        ≡ of_lines (codes "Ontology(" ∷ codes "SubClassOf(<x:A> <x:B>)"
        ∷ codes "SubClassOf(<x:B> <x:C>)" ∷ codes "SubClassOf(<x:C> <http://www.w3.org/2002/07/owl#Thing>)" ∷ codes ")" ∷ []) }
    ensures equivalent { text up_to_b equivalent
        ≡ of_lines (codes "Ontology(" ∷ codes "EquivalentClasses(<x:A> <x:B>)"
        ∷ codes "SubClassOf(<x:A> <http://www.w3.org/2002/07/owl#Thing>)" ∷ codes ")" ∷ []) }
    ensures inconsistent { text up_to_b inconsistent ≡ of_lines (codes "Ontology("
        ∷ codes "EquivalentClasses(<http://www.w3.org/2002/07/owl#Nothing> <http://www.w3.org/2002/07/owl#Thing> <x:A> <x:B>)"
        ∷ codes ")" ∷ []) }
{}
