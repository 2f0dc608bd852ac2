//! The items of a text, as the grammar sees them.
ghost use Rattle.std.specs.Prelude.{◌≡◌};
ghost use Rattle.cd_syntax.specs.Items.{item_of};

use crate::words::{Keyword, key_of};
use cd_base::Seq;
use cd_lex::Kind;

/// A token without its place, or what ends the items of a text: its end, or a byte at which no token begins.
#[derive(Debug, Drop)]
pub enum Item {
    Opening,
    Closing,
    Equals,
    Carets,
    Word(Keyword),
    /// A short name: the prefix with its colon, and what follows it.
    Short(Seq<u8>, Seq<u8>),
    /// An anonymous individual: what follows `_:`.
    Node(Seq<u8>),
    FullIri(Seq<u8>),
    /// A string.
    Quoted,
    /// A language tag.
    Lang,
    Bad,
    End,
}

/// The item that a token is. Constant time.
pub fn item_of(kind: Kind) -> Item
    ensures { result ≡ item_of kind }
{
    match kind {
        Kind::Opening => Item::Opening,
        Kind::Closing => Item::Closing,
        Kind::Equals => Item::Equals,
        Kind::Carets => Item::Carets,
        Kind::Word(word) => Item::Word(key_of(word.items())),
        Kind::Short(prefix, local) => Item::Short(prefix, local),
        Kind::Node(label) => Item::Node(label),
        Kind::FullIri(iri) => Item::FullIri(iri),
        Kind::Quoted => Item::Quoted,
        Kind::Lang => Item::Lang,
    }
}
