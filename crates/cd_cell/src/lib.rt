//! Cells: the contexts of the keys that have one place among so many, and what they say of a document once nothing is owed.
//!
//! A cell (`cell`) is an actor whose messages are notes. It tells each note to the context of its key, which begins where there is none
//! (`contexts`), and sends what that context came to owe to the cells of the keys (`sending`). What it tells of a named class is read off
//! the live clauses of the context of that class alone (`reading`): which classes it is below, and of which that is left open. The context of
//! the class and of what is open, negated, then tells more.
//!
//! The laws (`laws`) say why that is right. Contexts that are closed, and that owe each other nothing that is not had, are saturated: each
//! conclusion of every rule is redundant. What saturated contexts say of a named atom is exact (`cd_model`), so what closed cells tell of
//! a class is true in every model, whatever the order of delivery was.
#![tactic(auto)]

mod cell;
mod contexts;
mod laws;
mod reading;
mod sending;

pub use cell::Cell;
pub use laws::{cells_are_exact, closed_is_saturated, counts_are_had, same_readings};
pub use reading::Reading;
