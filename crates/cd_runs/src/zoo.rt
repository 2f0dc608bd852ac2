//! A document as the OWL API writes it, through the whole command in reads of a hundred bytes. Its text was written by hand.
use crate::commands::{classify_from, has_ended, sink_of};
use cd_base::Limits;
use cd_grammar::read_document;
use cd_io::MemSource;
use std::alloc::Global;
use std::process::Abort;

const ZOO: [&str; 48] = [
    "Prefix(:=<http://example.org/zoo#>)\n",
    "Prefix(owl:=<http://www.w3.org/2002/07/owl#>)\n",
    "Prefix(rdf:=<http://www.w3.org/1999/02/22-rdf-syntax-ns#>)\n",
    "Prefix(xml:=<http://www.w3.org/XML/1998/namespace>)\n",
    "Prefix(xsd:=<http://www.w3.org/2001/XMLSchema#>)\n",
    "Prefix(rdfs:=<http://www.w3.org/2000/01/rdf-schema#>)\n",
    "\n",
    "\n",
    "Ontology(<http://example.org/zoo>\n",
    "Annotation(rdfs:comment \"A \\\"small\\\" zoo (#1)\"^^xsd:string)\n",
    "\n",
    "Declaration(Class(:Animal))\n",
    "Declaration(Class(:Carnivore))\n",
    "Declaration(Class(:Cat))\n",
    "Declaration(Class(:Chimera))\n",
    "Declaration(Class(:Grazer))\n",
    "Declaration(Class(:Herbivore))\n",
    "Declaration(Class(:Mouse))\n",
    "Declaration(Class(:Plant))\n",
    "Declaration(ObjectProperty(:eats))\n",
    "Declaration(ObjectProperty(:hunts))\n",
    "\n",
    "############################\n",
    "#   Object Properties\n",
    "############################\n",
    "\n",
    "# Object Property: :eats (:eats)\n",
    "\n",
    "ObjectPropertyDomain(:eats :Animal)\n",
    "ObjectPropertyRange(:eats ObjectUnionOf(:Animal :Plant))\n",
    "SubObjectPropertyOf(:hunts :eats)\n",
    "\n",
    "############################\n",
    "#   Classes\n",
    "############################\n",
    "\n",
    "# Class: :Cat (cat)\n",
    "\n",
    "AnnotationAssertion(rdfs:label :Cat \"cat\"@en)\n",
    "SubClassOf(Annotation(rdfs:comment \"said by the keeper\") :Cat :Animal)\n",
    "SubClassOf(:Cat ObjectSomeValuesFrom(:hunts :Mouse))\n",
    "EquivalentClasses(:Carnivore ObjectIntersectionOf(:Animal ObjectSomeValuesFrom(:eats :Animal)))\n",
    "EquivalentClasses(:Herbivore ObjectIntersectionOf(:Animal ObjectAllValuesFrom(:eats :Plant)))\n",
    "SubClassOf(:Grazer ObjectIntersectionOf(:Animal ObjectComplementOf(:Carnivore)))\n",
    "SubClassOf(:Chimera ObjectIntersectionOf(:Animal :Plant))\n",
    "SubClassOf(:Mouse :Animal)\n",
    "DisjointClasses(:Animal :Plant)\n",
    ")\n",
];

/// The lines of its text.
const ITS_LINES: [&str; 10] = [
    "Ontology(\n",
    "EquivalentClasses(<http://www.w3.org/2002/07/owl#Nothing> <http://example.org/zoo#Chimera>)\n",
    "SubClassOf(<http://example.org/zoo#Animal> <http://www.w3.org/2002/07/owl#Thing>)\n",
    "SubClassOf(<http://example.org/zoo#Carnivore> <http://example.org/zoo#Animal>)\n",
    "SubClassOf(<http://example.org/zoo#Cat> <http://example.org/zoo#Carnivore>)\n",
    "SubClassOf(<http://example.org/zoo#Grazer> <http://example.org/zoo#Herbivore>)\n",
    "SubClassOf(<http://example.org/zoo#Herbivore> <http://example.org/zoo#Animal>)\n",
    "SubClassOf(<http://example.org/zoo#Mouse> <http://example.org/zoo#Animal>)\n",
    "SubClassOf(<http://example.org/zoo#Plant> <http://www.w3.org/2002/07/owl#Thing>)\n",
    ")\n",
];

/// The lines in one text.
fn joined(rt: &impl Abort, alloc: Global, lines: &[&str]) -> String {
    let mut text = String::new(alloc);
    for line in lines {
        text.push_str(line).expect(rt, "memory");
    }
    text
}

/// The document in reads of a hundred bytes, of which those of these numbers fail.
fn zoo(rt: &impl Abort, alloc: Global, fails: Vec<u64>) -> MemSource {
    let text = joined(rt, alloc, &ZOO);
    MemSource::new(text.into_bytes(), 100, fails)
}

/// Whether the command ends so over it, with these reads failing.
fn ends(rt: &impl Abort, alloc: Global, fails: Vec<u64>, end: (u8, &str, &str)) -> bool {
    let source = zoo(rt, alloc, fails);
    let out = sink_of(rt, alloc, 1_000);
    let ran = classify_from(rt, alloc, source, out, &Limits::standard());
    let holds = has_ended(&ran, end);
    drop(ran);
    holds
}

#[test]
fn a_document_as_the_owl_api_writes_it_is_read(rt: HostRuntime) {
    let mut source = zoo(&rt, rt.alloc(), Vec::new(rt.alloc()));
    let document = read_document(rt.alloc(), &mut source, &Limits::standard()).expect(
        &rt,
        "a document",
    );
    assert_eq!(rt; document.axioms.items().len(), 11);
    assert_eq!(rt; document.classes.items().len(), 10);
    assert_eq!(rt; document.roles.items().len(), 2);
    drop(document);
}

#[test]
fn a_document_as_the_owl_api_writes_it_is_classified(rt: HostRuntime) {
    let expected = joined(&rt, rt.alloc(), &ITS_LINES);
    let fails = Vec::new(rt.alloc());
    assert!(rt; ends(&rt, rt.alloc(), fails, (0, expected.as_str(), "")));
    drop(expected);
}

#[test]
fn a_failing_read_in_the_midst_of_it_leaves_no_text(rt: HostRuntime) {
    let fails = vec![in rt.alloc(); 2].expect(&rt, "memory");
    assert!(rt; ends(&rt, rt.alloc(), fails, (4, "", "condor: reading failed\n")));
}
