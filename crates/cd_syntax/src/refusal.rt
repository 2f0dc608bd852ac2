//! Why a text is no document.
use thiserror::Error;

/// The first fault of an input, with its place: how many bytes stand before it.
#[derive(Clone, Copy, Debug, PartialEq, Eq, Error)]
pub enum Refusal {
    /// No accepted document has this item here.
    #[error("syntax error at byte {0}")]
    Syntax(u64),
    /// A construct that is refused, by its number (`word_text`), and its place.
    #[error("construct {0} at byte {1} is not accepted")]
    Construct(u8, u64),
    /// A prefix that isn't declared, or is declared with another IRI.
    #[error("prefix error at byte {0}")]
    Prefix(u64),
    /// More than 256 annotations, or constructors, stand inside each other.
    #[error("nesting too deep at byte {0}")]
    Depth(u64),
    /// The input is longer than the limit. This many bytes came.
    #[error("the input is longer than {0} bytes")]
    TooLong(u64),
}
