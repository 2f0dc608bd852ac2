//! The normal axioms of small texts, and of a large one. What is expected was counted by hand.
//! What has many parts is let go of by `drop`, which the prover takes as one step.
ghost use Rattle.std.specs.Prelude.{◌+◌, ◌*◌, ◌-◌, ◌^◌, ◌<◌, length};
ghost use Rattle.cd_meaning.specs.Nodes.{nodes};

use cd_base::{Limits, Normal};
use cd_grammar::read_document;
use cd_io::MemSource;
use cd_meaning::Document;
use cd_saturation::index_of;
use std::alloc::Global;
use std::process::Abort;

/// The document of a text.
fn document_of(rt: &impl Abort, alloc: Global, text: Vec<u8>) -> Document
    ensures { length result.classes + 6 * nodes result.axioms < 2 ^ 32 - 1 }
{
    let mut source = MemSource::new(text, 65_536, Vec::new(alloc));
    let document = read_document(alloc, &mut source, &Limits::standard()).expect(rt, "a document");
    drop(source);
    document
}

/// Whether just the first `count` atoms are classes of the document.
fn has_named(normal: &Normal, count: usize) -> bool {
    let flags = normal.named.items();
    let mut holds = count <= flags.len();
    for (atom, flag) in flags.iter().enumerate() {
        holds = holds && *flag == (atom < count);
    }
    holds
}

/// Whether the normal axioms of a text have so many classes of the document, which are their first atoms, and so many roles.
fn is_normalised(rt: &impl Abort, alloc: Global, text: &str, named: usize, roles: u32) -> bool {
    let bytes = text.as_bytes().to_vec(alloc).expect(rt, "memory");
    let document = document_of(rt, alloc, bytes);
    let index = index_of(alloc, &document).expect(rt, "memory");
    drop(document);
    let holds = has_named(index.normal(), named) && index.normal().roles == roles;
    drop(index);
    holds
}

#[test]
fn documents_of_every_kind_have_normal_axioms(rt: HostRuntime) {
    for (text, named, roles) in [
        ("Ontology(SubClassOf(<x:A> <x:B>))", 4usize, 0u32),
        (
            "Ontology(SubClassOf(<x:A> ObjectSomeValuesFrom(<x:R> <x:B>)) SubClassOf(<x:A> ObjectAllValuesFrom(<x:S> <x:C>)) SubObjectPropertyOf(<x:R> <x:S>) DisjointClasses(<x:B> <x:C>))",
            5,
            2,
        ),
        (
            "Ontology(SubClassOf(ObjectComplementOf(ObjectSomeValuesFrom(<x:R> owl:Thing)) <x:B>) SubClassOf(<x:A> ObjectAllValuesFrom(<x:R> owl:Nothing)))",
            4,
            1,
        ),
        (
            "Ontology(SubClassOf(ObjectAllValuesFrom(<x:R> <x:A>) <x:B>) SubClassOf(owl:Thing ObjectAllValuesFrom(<x:R> <x:A>)))",
            4,
            1,
        ),
        (
            "Ontology(DisjointUnion(<x:A> <x:B> <x:C>) SubClassOf(<x:D> <x:A>) SubClassOf(<x:D> ObjectComplementOf(<x:B>)))",
            6,
            0,
        ),
    ] {
        assert!(rt;
            is_normalised(&rt, rt.alloc(), text, named, roles),
            "{text}"
        );
    }
}

/// Eight axioms, of all kinds, of a number at each `_`.
const AXIOMS: &str =
    "SubClassOf(:A_ ObjectSomeValuesFrom(:r ObjectUnionOf(:B_ ObjectComplementOf(:C_))))EquivalentClasses(:D_ ObjectAllValuesFrom(:s :A_))DisjointClasses(:A_ :B_ :C_)DisjointUnion(:E_ :A_ :B_)SubObjectPropertyOf(:p_ :q)EquivalentObjectProperties(:p_ :t_)ObjectPropertyDomain(:p_ :A_)ObjectPropertyRange(:p_ :B_)";

/// Appends the form once for each number below `count`, with the number at each `_`.
fn put_numbered(rt: &impl Abort, alloc: Global, text: &mut Vec<u8>, count: u32, form: &str) {
    for i in 0..count {
        let number = format!(in alloc; "{i}").expect(rt, "memory");
        let part = form.replace(alloc, "_", &number).expect(rt, "memory");
        drop(number);
        text.extend_from_slice(part.as_bytes()).expect(rt, "memory");
        drop(part);
    }
}

/// 20,000 axioms of all kinds, a disjointness of 20,000 classes, and 20,000 roles without a pair.
fn large_text(rt: &impl Abort, alloc: Global) -> Vec<u8> {
    let mut text = b"Prefix(:=<x:>)Ontology("
        .to_vec(alloc)
        .expect(rt, "memory");
    put_numbered(rt, alloc, &mut text, 2_500, AXIOMS);
    text.extend_from_slice(b"DisjointClasses(")
        .expect(rt, "memory");
    put_numbered(rt, alloc, &mut text, 20_000, " :F_");
    text.push(b')').expect(rt, "memory");
    put_numbered(
        rt,
        alloc,
        &mut text,
        20_000,
        "ObjectPropertyDomain(:u_ :A0)",
    );
    text.push(b')').expect(rt, "memory");
    text
}

#[test]
fn a_large_document_is_normalised_and_indexed(rt: HostRuntime) {
    let document = document_of(&rt, rt.alloc(), large_text(&rt, rt.alloc()));
    let index = index_of(rt.alloc(), &document).expect(&rt, "memory");
    drop(document);
    // owl:Thing and owl:Nothing, five classes for each number, and those of the large disjointness.
    assert!(rt; has_named(index.normal(), 32_502));
    assert_eq!(rt; index.normal().roles, 25_003);
    assert_eq!(rt; index.normal().n5.items().len(), 7_500);
    assert_eq!(rt; index.free().len(), 2_501);
    drop(index);
}
