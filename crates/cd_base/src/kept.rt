//! What is kept for the cells of a run.
ghost use Rattle.std.specs.Prelude.{ℕ};

/// A value that is kept for a cell: a cell itself, or a message that waits for one.
///
/// Runs among threads hand such values from one thread to another, and rely on no more than that each fits the cell it is kept for.
pub trait Kept: Drop {
    /// Whether the value fits the cell of this number.
    ghost fits: { Self → ℕ → Type 0 };
}
