ghost use Rattle.std.specs.Prelude.{◌≡◌, ◌≢◌, ◌<◌, ◌^◌, IsTrue, length, take, AllPairs};
ghost use Rattle.std.specs.List.{list_all};
ghost use Rattle.cd_meaning.specs.Numbered.{has_numbers_below};
ghost use Rattle.cd_meaning.specs.Iri.{reserved_classes};

use crate::expression::Axiom;
use cd_base::Seq;

/// owl:Thing, by its number: the class of all elements.
pub const THING: u32 = 0;

/// owl:Nothing, by its number: the class of no element.
pub const NOTHING: u32 = 1;

/// The axioms of an ontology document, with the IRIs of its classes and of its roles by number. Structural Specification, section 3.
///
/// The first two classes are owl:Thing and owl:Nothing (`THING`, `NOTHING`). No two classes have one IRI, and no two roles.
#[derive(Debug, Drop)]
pub struct Document {
    pub axioms: Seq<Axiom>,
    pub classes: Seq<Seq<u8>>,
    pub roles: Seq<Seq<u8>>,
    pub ghost numbered: { IsTrue
        (list_all (has_numbers_below (length classes) (length roles)) axioms) },
    pub ghost few_classes: { length classes < 2 ^ 32 },
    pub ghost few_roles: { length roles < 2 ^ 32 },
    pub ghost reserved: { take 2 classes ≡ reserved_classes },
    pub ghost distinct_classes: { AllPairs (λ a b. a ≢ b) classes },
    pub ghost distinct_roles: { AllPairs (λ a b. a ≢ b) roles },
}
