//! The causes of a fault.
ghost use Rattle.std.specs.Prelude.{◌≡◌};
ghost use Rattle.cd_syntax.specs.Refusal.{refusal_at};

use crate::refusal::Refusal;

/// Why an item can't stand at its place.
#[derive(Clone, Copy, Debug, PartialEq, Eq)]
pub enum Cause {
    /// A construct that is refused, by its number.
    Construct(u8),
    /// A prefix that isn't declared, or is declared with another IRI.
    Prefix,
    /// Too many annotations or constructors stand inside each other.
    Depth,
    Syntax,
}

impl Cause {
    /// The refusal of a text whose item at this place is the first fault.
    pub fn at(self, place: u64) -> Refusal
        ensures { result ≡ refusal_at self place }
    {
        match self {
            Cause::Construct(number) => Refusal::Construct(number, place),
            Cause::Prefix => Refusal::Prefix(place),
            Cause::Depth => Refusal::Depth(place),
            Cause::Syntax => Refusal::Syntax(place),
        }
    }
}
