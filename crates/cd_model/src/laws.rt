//! The theorems of the calculus, each on the contract of a function that does nothing.
ghost use Rattle.cd_model.specs.Canonical.{Completeness};
ghost use Rattle.cd_model.specs.Exactness.{Exactness};
ghost use Rattle.cd_model.specs.Soundness.{Soundness};
ghost use Rattle.cd_model.specs.TrueAnswers.{OneTrueAnswer};

/// Soundness: whatever is derived in the context of a key is true of each element that meets the key, in every model of the normal axioms.
pub fn derived_is_true()
    ensures { Soundness }
{}

/// Completeness: saturated contexts, one of which is without the empty clause, have a finite model of the normal axioms, the canonical
/// interpretation. Each such context has an element in it that meets the context's key, and is in atoms alone that are chosen there.
pub fn contexts_have_a_model()
    ensures { Completeness }
{}

/// Exactness: of saturated contexts whose live clauses are derived, that of an atom has the empty clause exactly where the atom has no
/// element in any finite model of the normal axioms. Else each element of it is one of each atom whose own clause is live, in every finite
/// model, and of no atom that isn't chosen. For the atoms between, the context of the atom and of others that are negated has the empty
/// clause exactly where each element of the one is one of some of the others.
pub fn answers_are_exact()
    ensures { Exactness }
{}

/// A class has one true answer: what an answer says of the class in every model tells which answer it is.
pub fn has_one_true_answer()
    ensures { OneTrueAnswer }
{}
