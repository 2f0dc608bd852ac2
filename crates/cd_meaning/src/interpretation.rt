ghost use Rattle.std.specs.Prelude.{◌<◌, All};

use cd_base::Seq;

/// An element of a class.
#[derive(Clone, Copy, Debug, PartialEq, Eq)]
pub struct Member {
    pub class: u32,
    pub element: u32,
}

/// An edge of a role, from one element to another.
#[derive(Clone, Copy, Debug, PartialEq, Eq)]
pub struct Edge {
    pub role: u32,
    pub source: u32,
    pub target: u32,
}

/// A finite interpretation: a domain of elements 0 to `size - 1`, and which of them the classes and roles have. Direct Semantics,
/// section 2.2.
///
/// Pairs of owl:Thing and owl:Nothing may be listed and change nothing. As contracts see it, no number has an upper bound.
#[derive(Debug, Drop)]
pub struct Interpretation {
    pub size: u32,
    pub classes: Seq<Member>,
    pub roles: Seq<Edge>,
    pub ghost inhabited: { 0 < size },
    pub ghost members: { All (λ m. m.element < size) classes },
    pub ghost sources: { All (λ edge. edge.source < size) roles },
    pub ghost targets: { All (λ edge. edge.target < size) roles },
}
