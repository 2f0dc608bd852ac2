//! A law of the maxima, on the contract of a function that does nothing.
ghost use Rattle.cd_saturation.specs.Answerable.{NamesAreAnswerable};

/// No maximum can be reached by a document of named classes alone, each maximum being above what its classes and the operands of its
/// axioms on disjoint classes can need.
pub fn names_are_answerable()
    ensures { NamesAreAnswerable }
{}
