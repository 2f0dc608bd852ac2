//! What a step did, and why a run stopped.
use cd_base::LimitKind;
use thiserror::Error;

/// What a step did.
#[derive(Clone, Copy, Debug, PartialEq, Eq)]
pub enum Step {
    /// A message was delivered.
    Delivered,
    /// Nothing pends.
    Empty,
}

/// Why a run stopped before its end.
#[derive(Debug, Drop, Error)]
pub enum Stop<A> {
    /// A count has reached its maximum: which, its sum over the cells, and the cells as they are then.
    #[error("the maximum was reached ({0:?}: {1})")]
    Limit(LimitKind, u64, Vec<A>),
    /// A call wanted for memory.
    #[error("out of memory")]
    Memory,
}
