//! Ontology documents of any size up to a bound, made by rule and not read: large input whose answer can be said in advance.
//!
//! A document of n levels has a chain of classes A0, A1 and so on, in which each has an edge of the role R to the one before it. Each
//! level has four classes: A is below the union of B and C, both of which are below D, and so A is below D by cases. R is below S, and
//! whatever has an S-edge to D is in E, so each A but the first is below E. U is below A and disjoint with D, so nothing can be in it.
//! A run that answers such a document works with unions, edges, the hierarchy of roles and disjointness at each level. Its taxonomy has
//! 4n + 4 classes in 3n + 4 groups, n classes that can have no member, and 4n + 1 direct superclasses; no contract here says that.
//!
//! - `document` puts the parts together. What they are is said in `specs/Generated.antt`.
//! - `names` makes the IRIs, and `axioms` the axioms.
//!
//! Its tests are in `cd_calls`.
#![tactic(auto)]

mod axioms;
mod document;
mod names;

pub use document::make;
