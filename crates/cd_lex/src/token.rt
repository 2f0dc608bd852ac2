use cd_base::Seq;
use thiserror::Error;

/// What a token is. Structural Specification, sections 2.2, 2.3 and 2.4.
#[derive(Debug, Drop)]
pub enum Kind {
    /// `(`.
    Opening,
    /// `)`.
    Closing,
    /// `=`.
    Equals,
    /// `^^`.
    Carets,
    /// A word without a colon.
    Word(Seq<u8>),
    /// A short name: the prefix with its colon, and what follows it.
    Short(Seq<u8>, Seq<u8>),
    /// An anonymous individual: what follows `_:`.
    Node(Seq<u8>),
    /// A full IRI, without `<` and `>`.
    FullIri(Seq<u8>),
    /// A string. Its bytes are not kept.
    Quoted,
    /// A language tag. Its bytes are not kept.
    Lang,
}

/// A token, and how many bytes of the text stand before it.
#[derive(Debug, Drop)]
pub struct Token {
    pub kind: Kind,
    pub place: u64,
}

/// Why a text can't be cut into tokens further.
#[derive(Clone, Copy, Debug, PartialEq, Eq, Error)]
pub enum LexFault {
    /// No token begins at this byte, counted from the start of the text.
    #[error("no token begins at byte {0}")]
    BadByte(u64),
    #[error("out of memory")]
    Memory,
}
