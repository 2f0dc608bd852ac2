//! IRIs by number.
ghost use Rattle.std.specs.Prelude.{◌≡◌, ◌<◌, ◌-◌, ◌^◌, [], Some, length, slice_get, IfOk, OnOk, OnErr};
ghost use Rattle.cd_names.specs.Names.{add_name, number};

use cd_base::{Memory, Seq};
use indexmap::IndexSet;
use std::alloc::Global;
use std::marker::Model;

/// IRIs, each with a number: its place in the order in which they came.
///
/// There are fewer than 4,294,967,296, so that each number and their count is a `u32`.
#[derive(Drop)]
pub struct Names {
    iris: IndexSet<Vec<u8>>,
}

impl Model for Names {
    ghost use Rattle.std.specs.Prelude.{ℕ, ◌<◌, ◌^◌, List, map, length};

    ghost Value = { List (List ℕ) };

    ghost view = { λ names. map (λ iri. iri.items) names.iris.keys };

    ghost invariant = { λ names. length names.iris.keys < 2 ^ 32 };
}

impl Names {
    /// No names. Takes no memory and constant time.
    pub fn new(alloc: Global) -> Names
        ensures { result ≡ [] }
    {
        Names {
            iris: IndexSet::new(alloc),
        }
    }

    /// How many names there are. Constant time.
    pub fn len(&self) -> u32
        ensures { result ≡ length self.now }
    {
        self.iris.len() as u32
    }

    /// The IRI of this number. Constant time.
    pub fn text(&self, number: u32) -> &[u8]
        requires { number < length self.now }
        ensures { slice_get self.now number ≡ Some result.now }
    {
        self.iris.as_slice()[number as usize].as_slice()
    }

    /// The number of an IRI, which goes to the end if it is new. One look-up, so linear in the bytes of the IRI; a new one takes two,
    /// and only then the IRI is copied.
    pub fn add(&mut self, iri: &[u8]) -> Result<u32, Memory>
        requires { length self.old < 2 ^ 32 - 1 }
        ensures numbered { IfOk result (λ n. n ≡ number self.old iri.now) }
        ensures added { OnOk result (self.new ≡ add_name self.old iri.now) }
        ensures unchanged { OnErr result (self.new ≡ self.old) }
    {
        if let Some(at) = self.iris.get_index_of(iri) {
            return Ok(at as u32);
        }
        let owned = iri.to_vec(*self.iris.allocator())?;
        let (at, _) = self.iris.insert_full(owned)?;
        Ok(at as u32)
    }

    /// The IRIs in the order of their numbers. Linear in how many there are.
    pub fn into_iris(self, alloc: Global) -> Result<Vec<Seq<u8>>, Memory>
        ensures value { IfOk result (λ iris. iris.items ≡ self) }
        ensures few { length self < 2 ^ 32 }
    {
        let Names { iris } = self;
        let iris = iris.into_iter().map(|iri| Seq::of(iri)).collect(alloc)?;
        Ok(iris)
    }
}
