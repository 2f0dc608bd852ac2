//! Laws of the normal forms, each on the contract of a function that does nothing.
ghost use Rattle.cd_nnf.specs.Nnf.{NnfHasTheMembers, NnfNotHasTheOthers, NnfHasNamesUnderMinus};

/// The normal form has the members of the expression, in every interpretation. Direct Semantics, section 2.2.3.
pub fn nnf_has_the_members()
    ensures { NnfHasTheMembers }
{}

/// The normal form of the complement has the other elements. Direct Semantics, section 2.2.3.
pub fn nnf_not_has_the_others()
    ensures { NnfNotHasTheOthers }
{}

/// In both normal forms `Minus` stands before names alone.
pub fn nnf_has_names_under_minus()
    ensures { NnfHasNamesUnderMinus }
{}
