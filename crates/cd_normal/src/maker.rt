//! What is made so far.
use cd_base::{Conj, RolePair, Triple};

/// Normal axioms in the making: the number of the next fresh atom, and the axioms so far.
#[derive(Drop)]
pub struct Maker {
    pub next: u32,
    pub n1: Vec<Conj>,
    pub n2: Vec<Triple>,
    pub n3: Vec<Triple>,
    pub n4: Vec<Triple>,
    pub n5: Vec<RolePair>,
}
