//! Laws of the definitions, each on the contract of a function that does nothing.
ghost use Rattle.cd_meaning.specs.Answer.{HasOneAnswer};
ghost use Rattle.cd_meaning.specs.AnyDomain.{FiniteIsEnough, FiniteIsSome};

/// A document has one answer: the definition of an answer leaves no choice.
pub fn has_one_answer()
    ensures { HasOneAnswer }
{}

/// Finite interpretations are enough: axioms entail over them exactly what they entail over every domain, finite or not. Direct
/// Semantics, section 2.5, speaks of every domain; that the finite ones suffice is the finite model property of ALCH.
pub fn finite_is_enough<D>()
    ensures { FiniteIsEnough D }
{}

/// A finite interpretation is a structure over the domain of its elements.
pub fn finite_is_some()
    ensures { FiniteIsSome }
{}
