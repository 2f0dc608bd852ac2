//! Laws of the definitions, each on the contract of a function that does nothing.
ghost use Rattle.cd_syntax.specs.Laws.{HasNoFaultWhereRead};

/// A text that is a document has no fault.
pub fn has_no_fault_where_read()
    ensures { HasNoFaultWhereRead }
{}
