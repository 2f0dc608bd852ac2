//! Worked documents and refusals, over sources in memory. What is expected was written by hand.
//! What has many parts is let go of by `drop`, which the prover takes as one step.
use cd_base::Limits;
use cd_grammar::{ReadRefusal, read_document};
use cd_io::MemSource;
use cd_meaning::Document;
use cd_syntax::{Refusal, word_text};
use std::alloc::Global;
use std::process::Abort;

/// What a text is that comes in reads of `piece` bytes, of which at most `most` are taken.
fn read(
    rt: &impl Abort,
    alloc: Global,
    text: &[u8],
    piece: usize,
    most: u64,
) -> Result<Document, ReadRefusal> {
    let bytes = text.to_vec(alloc).expect(rt, "memory");
    let mut source = MemSource::new(bytes, piece.max(1), Vec::new(alloc));
    let limits = Limits::with(1, 1, most, 1, 1).unwrap_or(Limits::standard());
    read_document(alloc, &mut source, &limits)
}

/// Why a text that comes at once is no document; `None` where it is one.
fn refusal_of(rt: &impl Abort, alloc: Global, text: &[u8]) -> Option<ReadRefusal> {
    read(rt, alloc, text, 65_536, 1_000_000).err()
}

/// Whether the axioms of a document are shown like this.
fn has_axioms(rt: &impl Abort, alloc: Global, text: &str, expected: &str) -> bool {
    let document = read(rt, alloc, text.as_bytes(), 3, 1_000_000).expect(rt, "a document");
    let shown = format!(in alloc; "{:?}", document.axioms.items()).expect(rt, "memory");
    drop(document);
    let holds = shown.as_str() == expected;
    drop(shown);
    holds
}

/// Whether these axioms, under the prefix `p`, are shown like this.
fn are_shown(rt: &impl Abort, alloc: Global, axioms: &str, expected: &str) -> bool {
    let text = format!(in alloc; "Prefix(p:=<x:>) Ontology({axioms})").expect(rt, "memory");
    let holds = has_axioms(rt, alloc, text.as_str(), expected);
    drop(text);
    holds
}

#[test]
fn each_axiom_is_read_as_the_standard_means_it(rt: HostRuntime) {
    let rows = [
        ("SubClassOf(p:A owl:Thing)", "[SubClass(Name(2), Name(0))]"),
        (
            "EquivalentClasses(p:A owl:Nothing <x:A>)",
            "[SameClasses(Seq { items: [Name(2), Name(1), Name(2)] })]",
        ),
        (
            "DisjointClasses(p:A p:B)",
            "[Disjoint(Seq { items: [Name(2), Name(3)] })]",
        ),
        (
            "DisjointUnion(p:A p:B p:C)",
            "[DisjointUnion(2, Seq { items: [Name(3), Name(4)] })]",
        ),
        ("SubObjectPropertyOf(p:R p:S)", "[SubRole(0, 1)]"),
        (
            "EquivalentObjectProperties(p:R p:S p:R)",
            "[SameRoles(Seq { items: [0, 1, 0] })]",
        ),
        ("ObjectPropertyDomain(p:A p:A)", "[Domain(0, Name(2))]"),
        (
            "Declaration(Class(p:B)) ObjectPropertyRange(p:R p:A)",
            "[Range(0, Name(3))]",
        ),
        ("Declaration(ObjectProperty(owl:topObjectProperty))", "[]"),
        ("AnnotationAssertion(p:a _:b _:c)", "[]"),
        // Each class expression, which A is below.
        (
            "SubClassOf(<x:A> ObjectIntersectionOf(<x:B>))",
            "[SubClass(Name(2), Meet(Items { items: [Name(3)] }))]",
        ),
        (
            "SubClassOf(<x:A> ObjectUnionOf(<x:B> <x:A>))",
            "[SubClass(Name(2), Join(Items { items: [Name(3), Name(2)] }))]",
        ),
        (
            "SubClassOf(<x:A> ObjectComplementOf(<x:B>))",
            "[SubClass(Name(2), Minus(Boxed { inner: Name(3) }))]",
        ),
        (
            "SubClassOf(<x:A> ObjectSomeValuesFrom(<x:R> <x:B>))",
            "[SubClass(Name(2), SomeOf(0, Boxed { inner: Name(3) }))]",
        ),
        (
            "SubClassOf(<x:A> ObjectAllValuesFrom(<x:R> <x:B>))",
            "[SubClass(Name(2), AllOf(0, Boxed { inner: Name(3) }))]",
        ),
    ];
    for (axioms, expected) in rows {
        assert!(rt; are_shown(&rt, rt.alloc(), axioms, expected), "{axioms}");
    }
}

/// Whether the axiom is read with annotations at its `_`.
fn is_read_with_annotations(rt: &impl Abort, alloc: Global, axiom: &str) -> bool {
    let note =
        "Annotation(Annotation(rdfs:seeAlso _:n) rdfs:label \"a\"@en) Annotation(rdfs:label \"b\"^^xsd:string)";
    let noted = axiom.replace(alloc, "_", note).expect(rt, "memory");
    let text = format!(in alloc; "Ontology(<x:o> {noted})").expect(rt, "memory");
    drop(noted);
    let holds = refusal_of(rt, alloc, text.as_bytes()).is_none();
    drop(text);
    holds
}

#[test]
fn annotations_stand_wherever_the_standard_has_them(rt: HostRuntime) {
    let axioms = [
        "_",
        "Declaration(_ Class(<x:A>))",
        "SubClassOf(_ <x:A> <x:B>)",
        "EquivalentClasses(_ <x:A> <x:B>)",
        "DisjointClasses(_ <x:A> <x:B>)",
        "DisjointUnion(_ <x:A> <x:B> <x:C>)",
        "SubObjectPropertyOf(_ <x:R> <x:S>)",
        "EquivalentObjectProperties(_ <x:R> <x:S>)",
        "ObjectPropertyDomain(_ <x:R> <x:A>)",
        "ObjectPropertyRange(_ <x:R> <x:A>)",
        "AnnotationAssertion(_ rdfs:label <x:A> \"a\")",
        "SubAnnotationPropertyOf(_ <x:a> <x:b>)",
        "AnnotationPropertyDomain(_ <x:a> <x:A>)",
        "AnnotationPropertyRange(_ <x:a> <x:A>)",
    ];
    for axiom in axioms {
        assert!(rt; is_read_with_annotations(&rt, rt.alloc(), axiom), "{axiom}");
    }
}

/// Whether the text has this fault first.
fn has_fault(rt: &impl Abort, alloc: Global, text: &[u8], fault: Refusal) -> bool {
    refusal_of(rt, alloc, text) == Some(ReadRefusal::Refused(fault))
}

/// What stands before the word of a refused construct where it could be meant.
fn front_of(number: u8) -> &'static str {
    match number {
        2 | 3 | 45 | 46 => "Ontology(SubObjectPropertyOf(<x:R> ",
        13..=29 => "Ontology(SubClassOf(<x:A> ",
        _ => "Ontology(",
    }
}

/// Whether the refused construct of this number is named where it stands behind its front.
fn is_named(rt: &impl Abort, alloc: Global, number: u8) -> bool {
    let front = front_of(number);
    let word = word_text(number).unwrap_or(b"");
    let mut text = front.as_bytes().to_vec(alloc).expect(rt, "memory");
    text.extend_from_slice(word).expect(rt, "memory");
    text.extend_from_slice(b"(<x:B>)))").expect(rt, "memory");
    let fault = Refusal::Construct(number, front.len() as u64);
    let holds = has_fault(rt, alloc, text.as_slice(), fault);
    drop(text);
    holds
}

#[test]
fn each_refused_construct_is_named_with_its_place(rt: HostRuntime) {
    for number in 1u8..=46 {
        assert!(rt; is_named(&rt, rt.alloc(), number), "{number}");
    }
}

#[test]
fn the_first_fault_is_told_with_its_kind_and_place(rt: HostRuntime) {
    let rows = [
        (
            "Ontology(SubClassOf(<x:A> ObjectInverseOf(<x:R>)))",
            Refusal::Construct(2, 26),
        ),
        ("Ontology(SubClassOf(p:A <x:B>))", Refusal::Prefix(20)),
        ("Ontology(SubClassOf(<x:A> <x:B>)", Refusal::Syntax(32)),
        ("Prefix(owl:=<x:>)Ontology()", Refusal::Prefix(12)),
        ("Ontology(Annotation(rdfs:label \"a)", Refusal::Syntax(31)),
        (
            "Ontology(SubObjectPropertyOf(<x:R> owl:topObjectProperty))",
            Refusal::Construct(45, 35),
        ),
        ("", Refusal::Syntax(0)),
        ("\u{feff}Ontology()", Refusal::Syntax(0)),
        ("Ontology() Ontology()", Refusal::Syntax(11)),
        ("Ontology(SubClassOf(<x:A>))", Refusal::Syntax(25)),
        ("Ontology(SubClassOf(<x:A> <x B>))", Refusal::Syntax(26)),
        ("Ontology(EquivalentClasses(<x:A>))", Refusal::Syntax(32)),
        ("Ontology(DisjointUnion(<x:A> <x:B>))", Refusal::Syntax(34)),
        (
            "Ontology(SubClassOf(owl:topObjectProperty",
            Refusal::Syntax(41),
        ),
        ("Ontology(<x:o> q:v", Refusal::Prefix(15)),
        ("Prefix(_:=<x:>)Ontology()", Refusal::Syntax(7)),
        ("Prefix(a:b=<x:>)Ontology()", Refusal::Prefix(7)),
        ("Prefix(rdfs:b=<x:>)Ontology()", Refusal::Syntax(7)),
        ("Ontology() HasKey", Refusal::Construct(37, 11)),
        (
            "Ontology(AnnotationAssertion(rdfs:label _: \"a\"))",
            Refusal::Syntax(40),
        ),
    ];
    for (text, fault) in rows {
        assert!(rt;
            has_fault(&rt, rt.alloc(), text.as_bytes(), fault),
            "{text}"
        );
    }
}

/// What the text is refused with that has the front, `levels` times `open`, the middle, `levels` times `close`, and the back.
fn refusal_at(
    rt: &impl Abort,
    alloc: Global,
    levels: usize,
    (front, middle, back): (&str, &str, &str),
    (open, close): (&str, &str),
) -> Option<ReadRefusal> {
    let opened = open.repeat(alloc, levels).expect(rt, "memory");
    let closed = close.repeat(alloc, levels).expect(rt, "memory");
    let text = format!(in alloc; "{front}{opened}{middle}{closed}{back}").expect(rt, "memory");
    drop(opened);
    drop(closed);
    let found = refusal_of(rt, alloc, text.as_bytes());
    drop(text);
    found
}

#[test]
fn at_most_256_constructors_or_annotations_stand_inside_each_other(rt: HostRuntime) {
    let alloc = rt.alloc();
    let ends = ("Ontology(SubClassOf(<x:A> ", "<x:B>", "))");
    let pair = ("ObjectComplementOf(", ")");
    assert!(rt; refusal_at(&rt, alloc, 256, ends, pair) == None);
    let more = Some(ReadRefusal::Refused(Refusal::Depth(4890)));
    assert!(rt; refusal_at(&rt, alloc, 257, ends, pair) == more);
    let ends = ("Ontology(", "Annotation(rdfs:label \"a\"", "))");
    let pair = ("Annotation(", ") rdfs:label \"a\"");
    assert!(rt; refusal_at(&rt, alloc, 255, ends, pair) == None);
    let more = Some(ReadRefusal::Refused(Refusal::Depth(2825)));
    assert!(rt; refusal_at(&rt, alloc, 256, ends, pair) == more);
}

/// What the text, which comes by four bytes, is refused with by a limit of `most` bytes.
fn refusal_by(rt: &impl Abort, alloc: Global, text: &str, most: u64) -> Option<ReadRefusal> {
    read(rt, alloc, text.as_bytes(), 4, most).err()
}

#[test]
fn an_input_past_the_limit_alone_is_too_long_whatever_it_says(rt: HostRuntime) {
    let text = "Ontology(SubClassOf(<x:A> <x:B>))";
    let faulty = ")Ontology(SubClassOf(<x:A> <x:B>))";
    for (text, most, came) in [(text, 32, 33), (text, 5, 6), (faulty, 5, 6)] {
        let too_long = Some(ReadRefusal::Refused(Refusal::TooLong(came)));
        assert!(rt;
            refusal_by(&rt, rt.alloc(), text, most) == too_long,
            "{text} {most}"
        );
    }
    assert!(rt; refusal_by(&rt, rt.alloc(), text, 33) == None);
}

/// A document of every construct, by lines, and below each line what a cut shows: behind `|` the bytes up to the last `-` can't stand
/// at their place, so a document that ends before such a byte is at fault at the `|`, and any other one at its end.
const EVERY_CONSTRUCT: [(&str, &str); 10] = [
    (
        "Prefix(p:=<x:>)Ontology(<x:o> <x:v> # c",
        "|-----.|-.|---.|-------.|----.|----....",
    ),
    (
        "Annotation(Annotation(p:a \"n\") p:a _:b)Annotation(p:a \"1\"^^p:t)",
        "|---------.|---------.|-..|--..|-..|--.|---------.|-..|--|-|-..",
    ),
    (
        "Declaration(Class(p:A))Declaration(ObjectProperty(p:R))",
        "|----------.|----.|-...|----------.|-------------.|-...",
    ),
    (
        "SubClassOf(p:A ObjectIntersectionOf(p:B ObjectUnionOf(p:C ObjectComplementOf(p:D))))",
        "|---------.|-..|-------------------.|-..|------------.|-..|-----------------.|-.....",
    ),
    (
        "EquivalentClasses(p:A ObjectSomeValuesFrom(p:R p:B) ObjectAllValuesFrom(p:R p:C))",
        "|----------------.|-..|-------------------.|-..|-...|------------------.|-..|-...",
    ),
    (
        "DisjointClasses(p:A p:B)DisjointUnion(p:A p:B p:C)",
        "|--------------.|-..|-..|------------.|-..|-..|-..",
    ),
    (
        "SubObjectPropertyOf(p:R p:S)EquivalentObjectProperties(p:R p:S)",
        "|------------------.|-..|-..|-------------------------.|-..|-..",
    ),
    (
        "ObjectPropertyDomain(p:R p:A)ObjectPropertyRange(p:R p:A)",
        "|-------------------.|-..|-..|------------------.|-..|-..",
    ),
    (
        "AnnotationAssertion(p:a p:A \"s\\\"t\"@en)SubAnnotationPropertyOf(p:a p:b)",
        "|------------------.|-..|-..|-----|-..|----------------------.|-..|-..",
    ),
    (
        "AnnotationPropertyDomain(p:a p:A)AnnotationPropertyRange(p:a p:A))",
        "|-----------------------.|-..|-..|----------------------.|-..|-...",
    ),
];

/// The lines of the document, or what stands below them, each with this end.
fn joined(rt: &impl Abort, alloc: Global, is_below: bool, end: u8) -> Vec<u8> {
    let mut text = Vec::new(alloc);
    for (line, below) in EVERY_CONSTRUCT {
        let part = if is_below { below } else { line };
        text.extend_from_slice(part.as_bytes()).expect(rt, "memory");
        text.push(end).expect(rt, "memory");
    }
    text
}

/// Whether the document is at fault at this place where it ends before the cut.
fn is_cut(rt: &impl Abort, alloc: Global, text: &[u8], cut: usize, place: usize) -> bool {
    let front = text.get(..cut).unwrap_or(&[]);
    has_fault(rt, alloc, front, Refusal::Syntax(place as u64))
}

#[test]
fn a_document_cut_anywhere_is_at_fault_where_the_cut_shows(rt: HostRuntime) {
    let text = joined(&rt, rt.alloc(), false, b'\n');
    let marks = joined(&rt, rt.alloc(), true, b'.');
    let mut begun = 0;
    for (cut, mark) in marks.iter().enumerate() {
        if *mark == b'|' {
            begun = cut;
        }
        let place = if *mark == b'-' { begun } else { cut };
        if cut + 1 < marks.len() {
            assert!(rt; is_cut(&rt, rt.alloc(), &text, cut, place), "{cut}");
        }
    }
    drop(marks);
    // Without its last line break it is read.
    let front = text.split_last().expect(&rt, "a document").1;
    assert!(rt; refusal_of(&rt, rt.alloc(), front) == None);
    drop(text);
}
