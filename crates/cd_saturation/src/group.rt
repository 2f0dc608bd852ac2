//! A class and names of which it is open whether it is below them.
use cd_base::{Atom, Seq};

/// Names of which it is open whether the class is below them.
#[derive(Debug, Drop)]
pub(crate) struct Group {
    pub(crate) class: u32,
    pub(crate) names: Seq<Atom>,
}
