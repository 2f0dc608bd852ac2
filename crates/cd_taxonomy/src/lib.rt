//! From what is known of the superclasses of each class to the taxonomy of all classes, and to its text.
//!
//! `taxonomy` makes groups of equivalent classes out of one answer a class, and finds the direct superclasses of each group. `text`
//! prints them. What a group and a direct superclass are is said in `specs/Hierarchy.antt` of `cd_meaning`, with no regard to cost:
//! for each two groups it asks every third whether it is between them. Here each answer is read a few times instead.
//!
//! - `order` sorts the classes once by the bytes of their names. From then on a place, which is a number, stands for a name.
//! - `counts` has how many classes are above each class. Of two classes, one below the other, the lower has more superclasses, unless
//!   they are equivalent. So two numbers tell whether a class of an answer is in the group, and the other's answer is not searched.
//! - `representatives` takes of each group owl:Nothing, else owl:Thing, else the class with the least place.
//! - `members` sorts the places of the others.
//! - `parents` goes up from the lowest: the groups above a class come in the order of their numbers of superclasses, most first, and
//!   one is a direct superclass unless the answer of an earlier one has it, which then covers it. What is between two groups has more
//!   superclasses than the upper one, so it came before. What lies above a covered group is covered as well, since the relation is
//!   transitive, so that only the answers of direct superclasses are read.
//! - `hierarchy` puts these steps together, and `printing` writes the lines.
//! - `totals` counts what a taxonomy has.
//!
//! Nothing here asks where the answers come from: they only have to list classes of the document, and to give a relation that is
//! reflexive and transitive, with owl:Thing above all classes and owl:Nothing below all.
//!
//! Its tests are in `cd_calls`.
#![tactic(auto)]

mod counts;
mod groups;
mod hierarchy;
mod members;
mod order;
mod parents;
mod printing;
mod representatives;
mod totals;

pub use groups::{Group, Summary, Taxonomy};
pub use hierarchy::taxonomy;
pub use printing::text;
pub use totals::{summary, summary_text};
