//! Laws of the definitions, each on the contract of a function that does nothing.
ghost use Rattle.cd_top.specs.Headline.{HasOneText, IsBelowOver, NamesAreAnswered};
ghost use Rattle.cd_top.specs.Restated.{AnswerIsRestated, SameHaveSameAnswer};

/// The answer to an accepted document is itself an accepted document: it has the same classes, entails the same of any two of them,
/// and is the answer to itself.
pub fn answer_is_restated()
    ensures { AnswerIsRestated }
{}

/// Documents with the same classes that entail the same of them have the same answer.
pub fn same_have_same_answer()
    ensures { SameHaveSameAnswer }
{}

/// An input has one answer: any two runs that end with status 0 on the same bytes write the same text.
pub fn has_one_text()
    ensures { HasOneText }
{}

/// The answer, read as a document, has one class below another exactly where it is so in every structure of the Direct Semantics in which
/// the axioms of the input hold: over this domain, finite or not, and over every finite one. Direct Semantics, section 2.5.
pub fn is_below_in_every_structure<D>()
    ensures { IsBelowOver D }
{}

/// An accepted document of named classes alone, small beside the maxima, is answerable: so by the clause `classify` of `run` its run is
/// `Done` where no fault rises, unless memory runs out, and never ends at a maximum.
pub fn names_are_answered()
    ensures { NamesAreAnswered }
{}
