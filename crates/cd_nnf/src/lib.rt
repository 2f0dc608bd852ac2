//! Negation normal form: class expressions in which complements stand before names alone.
//!
//! `nnf` gives the normal form of an expression, and `nnf_not` that of its complement. The two are made together: under a complement
//! each calls the other, so that no complement of anything but a name is ever built. Under a complement an intersection becomes a
//! union, a union an intersection, and each quantifier the other one of the same role.
//!
//! What the normal forms are is said in `specs/Nnf.antt` as one fold over the expression, and the code is proved to give just that.
//! `specs/NnfTable.antt` has them with a line for each form, by which crates above reason. That they mean the same is said by the
//! laws: the normal form has the members of the expression, that of the complement has the other elements, and in both `Minus` stands
//! before names alone.
//!
//! Its tests are in `cd_calls`.
#![tactic(auto)]

mod laws;
mod normal_forms;

pub use laws::{nnf_has_names_under_minus, nnf_has_the_members, nnf_not_has_the_others};
pub use normal_forms::{nnf, nnf_not};
