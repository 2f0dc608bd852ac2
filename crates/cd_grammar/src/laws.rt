//! Laws of the definitions that the parser shows, each on the contract of a function that does nothing.
ghost use Rattle.cd_syntax.specs.Laws.{HasOneFault, HasOneReading, IsReadOrFaulty, KnownIsSound};
ghost use Rattle.cd_syntax.specs.WorkedTexts.{WorkedDocuments, WorkedFaults};

/// A text is one document at most.
pub fn has_one_reading()
    ensures { HasOneReading }
{}

/// What is known at the end of a document is what a document may have: its classes begin with owl:Thing and owl:Nothing, no IRI stands
/// twice among the classes or among the roles, the numbers in its axioms are theirs, and its classes have full IRIs for names.
pub fn known_is_sound()
    ensures { KnownIsSound }
{}

/// A text has one first fault at most, with one kind and one place.
pub fn has_one_fault()
    ensures { HasOneFault }
{}

/// A text of fewer than 2^31 bytes is a document or has a first fault.
pub fn is_read_or_faulty()
    ensures { IsReadOrFaulty }
{}

/// Small texts are the documents, or have the first faults, that were written down for them by hand.
pub fn worked_texts()
    ensures documents { WorkedDocuments }
    ensures faults { WorkedFaults }
{}
