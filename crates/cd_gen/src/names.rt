//! The IRIs of the classes and of the roles.
ghost use Rattle.std.specs.Prelude.{◌≡◌, ◌++◌, IfOk, OnOk};
ghost use Rattle.cd_gen.specs.Generated.{iri, level_iri, level_classes, generated_classes, generated_roles};

use cd_base::{Memory, Seq};
use itoa::Buffer;
use std::alloc::Global;

/// The IRIs of the classes of a document of `n` levels, by number. Linear in `n`.
pub(crate) fn classes(alloc: Global, n: u32) -> Result<Vec<Seq<u8>>, Memory>
    ensures { IfOk result (λ found. found.items ≡ generated_classes n) }
{
    let mut found = fixed_classes(alloc)?;
    for level in 0..n {
        push_level(alloc, &mut found, level)?;
    }
    Ok(found)
}

/// The IRIs of owl:Thing, owl:Nothing, D and E.
fn fixed_classes(alloc: Global) -> Result<Vec<Seq<u8>>, Memory>
    ensures { IfOk result (λ found. found.items ≡ generated_classes 0) }
{
    let thing = Vec::from_slice(alloc, b"http://www.w3.org/2002/07/owl#Thing")?;
    let nothing = Vec::from_slice(alloc, b"http://www.w3.org/2002/07/owl#Nothing")?;
    let mut found = Vec::new(alloc);
    found.push(Seq::of(thing))?;
    found.push(Seq::of(nothing))?;
    found.push(iri(alloc, b"D")?)?;
    found.push(iri(alloc, b"E")?)?;
    Ok(found)
}

/// Adds the IRIs of the classes of a level.
fn push_level(alloc: Global, found: &mut Vec<Seq<u8>>, level: u32) -> Result<(), Memory>
    ensures { OnOk result (found.new.items ≡ found.old.items ++ level_classes level) }
{
    found.push(level_iri(alloc, b"A", level)?)?;
    found.push(level_iri(alloc, b"B", level)?)?;
    found.push(level_iri(alloc, b"C", level)?)?;
    found.push(level_iri(alloc, b"U", level)?)?;
    Ok(())
}

/// The IRIs of the roles, by number.
pub(crate) fn roles(alloc: Global) -> Result<Vec<Seq<u8>>, Memory>
    ensures { IfOk result (λ found. found.items ≡ generated_roles) }
{
    let mut found = Vec::new(alloc);
    found.push(iri(alloc, b"R")?)?;
    found.push(iri(alloc, b"S")?)?;
    Ok(found)
}

/// The IRI of a word.
fn iri(alloc: Global, word: &[u8]) -> Result<Seq<u8>, Memory>
    ensures { IfOk result (λ name. name ≡ iri word.now) }
{
    let mut name = Vec::from_slice(alloc, b"urn:trial:")?;
    name.extend_from_slice(word)?;
    Ok(Seq::of(name))
}

/// The IRI of a letter and the number of a level.
fn level_iri(alloc: Global, letter: &[u8], level: u32) -> Result<Seq<u8>, Memory>
    ensures { IfOk result (λ name. name ≡ level_iri letter.now level) }
{
    let mut buffer = Buffer::new();
    let mut name = Vec::from_slice(alloc, b"urn:trial:")?;
    name.extend_from_slice(letter)?;
    name.extend_from_slice(buffer.format(level).as_bytes())?;
    Ok(Seq::of(name))
}
