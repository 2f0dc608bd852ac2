//! Laws of the definitions, each on the contract of a function that does nothing.
ghost use Rattle.cd_lex.specs.Showing.{ItemsAreUnique};
ghost use Rattle.cd_lex.specs.WorkedTokens.{WorkedTokens};

/// Every text has tokens up to its end or its first bad byte, and only one list of them.
pub fn items_are_unique()
    ensures { ItemsAreUnique }
{}

/// Small texts are cut into the pieces that were written down for them by hand.
pub fn worked_tokens()
    ensures { WorkedTokens }
{}
