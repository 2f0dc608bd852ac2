//! Prefixes, and the full IRIs of abbreviated ones. Structural Specification, sections 2.4 and 3.7.
ghost use Rattle.std.specs.Prelude.{◌≡◌, ◌≢◌, ◌↔◌, [], ◌∷◌, ◌++◌, Some, None, is_some, IfOk, IsSomeAnd, OnOk, OnErr, IsErrOf, option_copied};
ghost use Rattle.std.specs.Option.{option_map};
ghost use Rattle.cd_names.specs.Prefixes.{meaning, standard, declare};

use cd_base::{Memory, Seq};
use indexmap::IndexMap;
use std::alloc::Global;
use std::marker::Model;
use thiserror::Error;

/// Why a prefix can't be declared.
#[derive(Clone, Copy, Debug, PartialEq, Eq, Error)]
pub enum DeclareFault {
    /// The prefix stands for another IRI already.
    #[error("the prefix is declared with another IRI")]
    Clash,
    #[error("out of memory")]
    Memory,
}

/// Why an abbreviated IRI stands for no full one.
#[derive(Clone, Copy, Debug, PartialEq, Eq, Error)]
pub enum ExpandFault {
    #[error("the prefix is not declared")]
    Unknown,
    #[error("out of memory")]
    Memory,
}

/// Prefixes with their colons, and the IRI that each stands for.
#[derive(Drop)]
pub struct Prefixes {
    iris: IndexMap<Vec<u8>, Vec<u8>>,
}

impl Model for Prefixes {
    ghost use Rattle.std.specs.Prelude.{map};
    ghost use Rattle.cd_names.specs.Prefixes.{Declared};

    ghost Value = { Declared };

    ghost view = { λ prefixes. map (λ entry. (entry.0.items, entry.1.items))
        prefixes.iris.entries };
}

impl Prefixes {
    /// The prefixes that need no declaration: `rdf:`, `rdfs:`, `xsd:` and `owl:`. Constant time.
    pub fn standard(alloc: Global) -> Result<Prefixes, Memory>
        ensures { IfOk result (λ prefixes. prefixes ≡ standard) }
    {
        let mut prefixes = Prefixes {
            iris: IndexMap::new(alloc),
        };
        prefixes.push(
            alloc,
            b"rdf:",
            b"http://www.w3.org/1999/02/22-rdf-syntax-ns#",
        )?;
        prefixes.push(alloc, b"rdfs:", b"http://www.w3.org/2000/01/rdf-schema#")?;
        prefixes.push(alloc, b"xsd:", b"http://www.w3.org/2001/XMLSchema#")?;
        prefixes.push(alloc, b"owl:", b"http://www.w3.org/2002/07/owl#")?;
        Ok(prefixes)
    }

    /// Lets a prefix, with its colon, stand for an IRI. Nothing changes if it does so already. One look-up, and a second if the prefix
    /// is new, so linear in the bytes of both.
    pub fn declare(&mut self, alloc: Global, prefix: &[u8], iri: &[u8]) -> Result<(), DeclareFault>
        ensures clash { IsErrOf result DeclareFault.Clash
            ↔ IsSomeAnd (meaning self.old prefix.now) (λ known. known ≢ iri.now) }
        ensures declared { OnOk result (self.new ≡ declare self.old prefix.now iri.now) }
        ensures unchanged { OnErr result (self.new ≡ self.old) }
    {
        if let Some(known) = self.iri_of(prefix) {
            return if known == iri {
                Ok(())
            } else {
                Err(DeclareFault::Clash)
            };
        }
        self.push(alloc, prefix, iri)
            .map_err(|_| DeclareFault::Memory)
    }

    /// The full IRI of an abbreviated one: that of its prefix, which has its colon, and then `local`. One look-up, so linear in the
    /// bytes of the prefix and of the result.
    pub fn expand(&self, alloc: Global, prefix: &[u8], local: &[u8]) -> Result<Seq<u8>, ExpandFault>
        ensures expanded { IfOk result
            (λ full. option_map (λ iri. iri ++ local.now) (meaning self.now prefix.now)
            ≡ Some full) }
        ensures unknown { IsErrOf result ExpandFault.Unknown
            ↔ (meaning self.now prefix.now ≡ None) }
    {
        let Some(iri) = self.iri_of(prefix) else {
            return Err(ExpandFault::Unknown);
        };
        joined(alloc, iri, local).map_err(|_| ExpandFault::Memory)
    }

    /// Whether a prefix, with its colon, stands for an IRI. One look-up, so linear in its bytes.
    pub fn contains(&self, prefix: &[u8]) -> bool
        ensures { result ≡ is_some (meaning self.now prefix.now) }
    {
        self.iri_of(prefix).is_some()
    }

    /// What a prefix stands for, by one look-up.
    fn iri_of(&self, prefix: &[u8]) -> Option<&[u8]>
        ensures { option_copied result ≡ meaning self.now prefix.now }
    {
        let iri = self.iris.get(prefix)?;
        Some(iri.as_slice())
    }

    /// Lets a new prefix stand for an IRI. One look-up.
    fn push(&mut self, alloc: Global, prefix: &[u8], iri: &[u8]) -> Result<(), Memory>
        requires { meaning self.old prefix.now ≡ None }
        ensures pushed { OnOk result (self.new ≡ self.old ++ (prefix.now, iri.now) ∷ []) }
        ensures unchanged { OnErr result (self.new ≡ self.old) }
    {
        self.iris.insert(prefix.to_vec(alloc)?, iri.to_vec(alloc)?)?;
        Ok(())
    }
}

/// The bytes of one, and then those of the other. Linear in both.
fn joined(alloc: Global, front: &[u8], back: &[u8]) -> Result<Seq<u8>, Memory>
    ensures { IfOk result (λ both. both ≡ front.now ++ back.now) }
{
    let mut both = Vec::with_capacity(alloc, front.len() + back.len())?;
    both.extend_from_slice(front)?;
    both.extend_from_slice(back)?;
    Ok(Seq::of(both))
}
