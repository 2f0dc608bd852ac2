//! Worked inputs through the whole command, over memory. Expected texts are written by hand.
//! What has many parts is let go of by `drop`, which the prover takes as one step.

use crate::examples::{EXAMPLES, SMALL};
use cd_base::{LimitKind, Limits};
use cd_io::{MemSink, MemSource, Source};
use cd_top::{Status, classify_here, run};
use std::alloc::Global;
use std::process::Abort;

const ONE_SUBSUMPTION: &str = "Ontology(SubClassOf(<x:A> <x:B>))";

const ITS_TEXT: &str =
    "Ontology(\nSubClassOf(<x:A> <x:B>)\nSubClassOf(<x:B> <http://www.w3.org/2002/07/owl#Thing>)\n)\n";

const USAGE: &str =
    "condor: usage: condor classify|trial n [--workers n] [--cells n] [--max-contexts n] [--max-facts n]\n";

/// What a run gave, and what it left on its sinks.
#[derive(Drop)]
pub(crate) struct Ended {
    pub(crate) status: Status,
    pub(crate) out: MemSink,
    pub(crate) notes: MemSink,
    /// The bytes of the input that were not read.
    pub(crate) unread: usize,
}

/// How many bytes a source still gives.
fn count_left(source: &mut MemSource) -> usize {
    let mut total = 0usize;
    let mut buf = [0u8; 64];
    for _ in 0..1_000 {
        match source.read(&mut buf) {
            Ok(count) => total = total.saturating_add(count),
            Err(_) => break,
        }
    }
    total
}

/// The input, which comes in reads of `piece` bytes.
fn source_of(rt: &impl Abort, alloc: Global, input: &str, piece: usize) -> MemSource {
    let bytes = input.as_bytes().to_vec(alloc).expect(rt, "memory");
    MemSource::new(bytes, piece.max(1), Vec::new(alloc))
}

/// A sink with this room.
pub(crate) fn sink_of(rt: &impl Abort, alloc: Global, room: usize) -> MemSink {
    MemSink::new(alloc, room, 1_000, Vec::new(alloc)).expect(rt, "memory")
}

/// The words that stand in a text.
fn words_of(rt: &impl Abort, alloc: Global, text: &str) -> Vec<String> {
    let mut list = Vec::new(alloc);
    for word in text.split_whitespace() {
        let word = String::from_str(alloc, word).expect(rt, "memory");
        list.push(word).expect(rt, "memory");
    }
    list
}

/// Runs the command words, given as one text, on an input that comes at once, with ample room for the answer and this room for notes.
fn run_with_room(rt: &impl Abort, alloc: Global, words: &str, input: &str, room: usize) -> Ended {
    let list = words_of(rt, alloc, words);
    let mut source = source_of(rt, alloc, input, 1_000);
    let mut out = sink_of(rt, alloc, 1_000);
    let mut notes = sink_of(rt, alloc, room);
    let status = run(alloc, &list, &mut source, &mut out, &mut notes);
    let unread = count_left(&mut source);
    drop(source);
    drop(list);
    Ended {
        status,
        out,
        notes,
        unread,
    }
}

/// How a run ends: with this code, and these texts on its sinks.
type End<'a> = (u8, &'a str, &'a str);

/// Whether a run has ended so, and put nothing else on its sinks.
pub(crate) fn has_ended(ran: &Ended, (code, out, notes): End<'_>) -> bool {
    ran.status.code() == code
        && ran.out.bytes() == out.as_bytes()
        && ran.notes.bytes() == notes.as_bytes()
}

/// Whether the command words end so over an input, with ample room.
fn ends(rt: &impl Abort, alloc: Global, (words, input): (&str, &str), end: End<'_>) -> bool {
    let ran = run_with_room(rt, alloc, words, input, 1_000);
    let holds = has_ended(&ran, end);
    drop(ran);
    holds
}

/// Whether the command words end so, and leave the input as it was.
fn reads_nothing(rt: &impl Abort, alloc: Global, words: &str, end: End<'_>) -> bool {
    let ran = run_with_room(rt, alloc, words, ONE_SUBSUMPTION, 1_000);
    let holds = has_ended(&ran, end) && ran.unread == ONE_SUBSUMPTION.len();
    drop(ran);
    holds
}

/// Whether the command answers the input with this text, and says nothing else.
fn is_answered(rt: &impl Abort, alloc: Global, input: &str, expected: &str) -> bool {
    ends(rt, alloc, ("classify", input), (0, expected, ""))
}

#[test]
fn a_document_gives_the_taxonomy_that_it_entails(rt: HostRuntime) {
    for (input, expected) in [
        ("Ontology()", "Ontology(\n)\n"),
        (ONE_SUBSUMPTION, ITS_TEXT),
        (
            "Ontology(SubClassOf(<x:A> <x:B>) SubClassOf(<x:B> <x:C>) SubClassOf(<x:A> <x:C>))",
            "Ontology(\nSubClassOf(<x:A> <x:B>)\nSubClassOf(<x:B> <x:C>)\nSubClassOf(<x:C> <http://www.w3.org/2002/07/owl#Thing>)\n)\n",
        ),
        (
            "Ontology(SubClassOf(<x:A> <x:B>) SubClassOf(<x:B> <x:A>))",
            "Ontology(\nEquivalentClasses(<x:A> <x:B>)\nSubClassOf(<x:A> <http://www.w3.org/2002/07/owl#Thing>)\n)\n",
        ),
        (
            "Ontology(SubClassOf(<http://www.w3.org/2002/07/owl#Thing> <http://www.w3.org/2002/07/owl#Nothing>) Declaration(Class(<x:A>)))",
            "Ontology(\nEquivalentClasses(<http://www.w3.org/2002/07/owl#Nothing> <http://www.w3.org/2002/07/owl#Thing> <x:A>)\n)\n",
        ),
        (
            "Ontology(SubClassOf(<http://www.w3.org/2002/07/owl#Thing> <x:B>) SubClassOf(<x:A> <http://www.w3.org/2002/07/owl#Nothing>))",
            "Ontology(\nEquivalentClasses(<http://www.w3.org/2002/07/owl#Nothing> <x:A>)\nEquivalentClasses(<http://www.w3.org/2002/07/owl#Thing> <x:B>)\n)\n",
        ),
    ] {
        assert!(rt; is_answered(&rt, rt.alloc(), input, expected), "{input}");
    }
}

#[test]
fn real_syntax_gives_the_taxonomy_of_what_it_says(rt: HostRuntime) {
    for (input, expected) in [
        (
            "Prefix(p:=<x:>)Ontology(<x:o> #c\nSubClassOf(Annotation(rdfs:label \"a\\\"b\"@en) p:A p:B))",
            ITS_TEXT,
        ),
        (
            "Ontology(SubClassOf(owl:Thing owl:Nothing) Declaration(Class(<x:A>)) Declaration(Class(<x:B>)) Declaration(Class(<x:C>)))",
            "Ontology(\nEquivalentClasses(<http://www.w3.org/2002/07/owl#Nothing> <http://www.w3.org/2002/07/owl#Thing> <x:A> <x:B> <x:C>)\n)\n",
        ),
        (
            "Prefix(:=<x:>)\r\nOntology(<x:o> <x:v>\tAnnotationAssertion(rdfs:label :A \"a\"^^xsd:string) SubClassOf(:A :B) AnnotationPropertyDomain(:p :C) SubAnnotationPropertyOf(:p :q))",
            ITS_TEXT,
        ),
    ] {
        assert!(rt; is_answered(&rt, rt.alloc(), input, expected), "{input}");
    }
}

/// Whether the command answers the input with this text, and this text with the same text.
fn is_settled(rt: &impl Abort, alloc: Global, input: &str, expected: &str) -> bool {
    is_answered(rt, alloc, input, expected) && is_answered(rt, alloc, expected, expected)
}

#[test]
fn examples_have_their_taxonomies_and_so_have_these(rt: HostRuntime) {
    for (input, expected) in EXAMPLES {
        assert!(rt; is_settled(&rt, rt.alloc(), input, expected), "{input}");
    }
}

#[test]
fn small_ontologies_have_the_taxonomies_that_all_their_interpretations_give(rt: HostRuntime) {
    for (input, expected) in SMALL {
        assert!(rt; is_settled(&rt, rt.alloc(), input, expected), "{input}");
    }
}

/// A subsumption under so many nested complements.
fn nested_text(rt: &impl Abort, alloc: Global, depth: usize) -> String {
    let open = "ObjectComplementOf("
        .repeat(alloc, depth)
        .expect(rt, "memory");
    let close = ")".repeat(alloc, depth).expect(rt, "memory");
    format!(in alloc; "Ontology(SubClassOf(<x:A> {open}<x:B>{close}))").expect(rt, "memory")
}

#[test]
fn the_deepest_nesting_is_answered_and_a_deeper_one_is_refused(rt: HostRuntime) {
    let most = nested_text(&rt, rt.alloc(), 256);
    assert!(rt; is_answered(&rt, rt.alloc(), most.as_str(), ITS_TEXT));
    drop(most);
    let more = nested_text(&rt, rt.alloc(), 257);
    let line = "condor: nesting deeper than 256 at byte 4890\n";
    assert!(rt; ends(&rt, rt.alloc(), ("classify", more.as_str()), (1, "", line)));
    drop(more);
}

#[test]
fn a_refused_document_names_what_is_wrong_and_where(rt: HostRuntime) {
    for (input, line) in [
        (
            "Ontology(SubClassOf(<x:A> ObjectInverseOf(<x:R>)))",
            "condor: construct ObjectInverseOf at byte 26\n",
        ),
        (
            "Ontology(SubClassOf(p:A <x:B>))",
            "condor: prefix at byte 20\n",
        ),
        (
            "Ontology(SubClassOf(<x:A> <x:B>)",
            "condor: syntax at byte 32\n",
        ),
        ("Prefix(owl:=<x:>)Ontology()", "condor: prefix at byte 12\n"),
        (
            "Ontology(Annotation(rdfs:label \"a)",
            "condor: syntax at byte 31\n",
        ),
        (
            "Ontology(SubObjectPropertyOf(<x:R> owl:topObjectProperty))",
            "condor: construct owl:topObjectProperty at byte 35\n",
        ),
    ] {
        assert!(rt;
            ends(&rt, rt.alloc(), ("classify", input), (1, "", line)),
            "{input}"
        );
    }
}

#[test]
fn other_words_read_nothing_and_name_the_usage(rt: HostRuntime) {
    for words in [
        "",
        "classify classify",
        "Classify",
        "--help",
        "classify --workers 0",
        "classify --workers 2 --workers 2",
        "trial",
        "trial 0",
        "trial 20001",
    ] {
        assert!(rt;
            reads_nothing(&rt, rt.alloc(), words, (2, "", USAGE)),
            "{words}"
        );
    }
}

#[test]
fn a_trial_counts_what_its_document_entails_and_reads_nothing(rt: HostRuntime) {
    // n levels have 4n + 4 classes in 3n + 4 groups, n classes that can have no member, and 4n + 1 direct superclasses.
    for (words, expected) in [
        (
            "trial 3",
            "names 16\ngroups 13\nunsatisfiable 3\nlinks 13\n",
        ),
        (
            "--cells=1 trial --max-contexts 4000000 3 --max-facts=40000000",
            "names 16\ngroups 13\nunsatisfiable 3\nlinks 13\n",
        ),
        (
            "trial 1000",
            "names 4004\ngroups 3004\nunsatisfiable 1000\nlinks 4001\n",
        ),
    ] {
        assert!(rt;
            reads_nothing(&rt, rt.alloc(), words, (0, expected, "")),
            "{words}"
        );
    }
}

/// Three contexts of classes and one of an existential, at least.
const SOME_OF_A_UNION: &str =
    "Ontology(SubClassOf(<x:A> ObjectSomeValuesFrom(<x:R> ObjectUnionOf(<x:B> <x:C>))) SubClassOf(ObjectSomeValuesFrom(<x:R> <x:B>) <x:D>) SubClassOf(ObjectSomeValuesFrom(<x:R> <x:C>) <x:D>))";

/// How a run over the input ends under these limits, and what it puts on its sinks.
pub(crate) fn classify_from(
    rt: &impl Abort,
    alloc: Global,
    mut source: MemSource,
    mut out: MemSink,
    limits: &Limits,
) -> Ended {
    let mut notes = sink_of(rt, alloc, 1_000);
    let status = classify_here(alloc, &mut source, &mut out, &mut notes, limits);
    let unread = count_left(&mut source);
    drop(source);
    Ended {
        status,
        out,
        notes,
        unread,
    }
}

/// How a run over `SOME_OF_A_UNION` ends with these maxima, and what it puts on its sinks.
fn run_with_maxima(rt: &impl Abort, alloc: Global, max_contexts: u64, max_facts: u64) -> Ended {
    let limits = Limits::with(1, 3, 1_000, max_contexts, max_facts).expect(rt, "limits in range");
    let source = source_of(rt, alloc, SOME_OF_A_UNION, 7);
    let out = sink_of(rt, alloc, 1_000);
    classify_from(rt, alloc, source, out, &limits)
}

/// The line of a maximum that was reached at this count.
fn limit_line(rt: &impl Abort, alloc: Global, kind: LimitKind, count: u64) -> String {
    let counted = match kind {
        LimitKind::Contexts => "contexts",
        LimitKind::Facts => "facts",
    };
    format!(in alloc; "condor: limit on {counted} reached at {count}\n").expect(rt, "memory")
}

/// Whether a run has reached a maximum of this kind, at a count of `least` or more, and has written its line alone.
fn has_reached(rt: &impl Abort, alloc: Global, ran: &Ended, kind: LimitKind, least: u64) -> bool {
    let Status::Limit(reached, count) = ran.status else {
        return false;
    };
    let line = limit_line(rt, alloc, kind, count);
    let told = has_ended(ran, (3, "", line.as_str()));
    drop(line);
    told && reached == kind && least <= count
}

/// Whether a run over `SOME_OF_A_UNION` with these maxima reaches this one, at a count of `least` or more.
fn reaches(
    rt: &impl Abort,
    alloc: Global,
    (max_contexts, max_facts): (u64, u64),
    kind: LimitKind,
    least: u64,
) -> bool {
    let ran = run_with_maxima(rt, alloc, max_contexts, max_facts);
    let holds = has_reached(rt, alloc, &ran, kind, least);
    drop(ran);
    holds
}

#[test]
fn a_maximum_that_is_reached_is_told_with_its_count(rt: HostRuntime) {
    for (maxima, kind, least) in [
        ((4, 1_000), LimitKind::Contexts, 4),
        ((1, 1), LimitKind::Contexts, 1),
        ((1_000, 5), LimitKind::Facts, 5),
    ] {
        assert!(rt; reaches(&rt, rt.alloc(), maxima, kind, least), "{least}");
    }
}

#[test]
fn a_run_that_reaches_no_maximum_is_done(rt: HostRuntime) {
    let ran = run_with_maxima(&rt, rt.alloc(), 1_000, 1_000);
    assert!(rt; ran.status == Status::Done);
    drop(ran);
}

/// Whether the words give nothing but the line of a maximum of contexts, with a count of `least` or more.
fn stops_at_contexts(rt: &impl Abort, alloc: Global, words: &str, least: u64) -> bool {
    let ran = run_with_room(rt, alloc, words, SOME_OF_A_UNION, 1_000);
    let holds = has_reached(rt, alloc, &ran, LimitKind::Contexts, least);
    drop(ran);
    holds
}

#[test]
fn an_option_sets_the_maximum_that_stops_a_run(rt: HostRuntime) {
    for (words, least) in [
        ("classify --max-contexts 4", 4),
        ("classify --max-contexts 4 --workers 1", 4),
        ("trial 3 --max-contexts 16", 16),
    ] {
        assert!(rt; stops_at_contexts(&rt, rt.alloc(), words, least), "{words}");
    }
}

/// A sink for writes of `piece` bytes, of which the call of this number fails.
fn failing_sink(rt: &impl Abort, alloc: Global, piece: usize, number: u64) -> MemSink {
    let fails = vec![in alloc; number].expect(rt, "memory");
    MemSink::new(alloc, 1_000, piece.max(1), fails).expect(rt, "memory")
}

/// Whether a run, where the write of this number of `piece` bytes each fails, tells that and leaves this of its text.
fn leaves(rt: &impl Abort, alloc: Global, piece: usize, number: u64, front: &str) -> bool {
    let source = source_of(rt, alloc, ONE_SUBSUMPTION, 10);
    let out = failing_sink(rt, alloc, piece, number);
    let ran = classify_from(rt, alloc, source, out, &Limits::standard());
    let holds = has_ended(&ran, (5, front, "condor: writing failed\n"));
    drop(ran);
    holds
}

#[test]
fn a_failing_write_is_told_and_leaves_a_front(rt: HostRuntime) {
    // The third write fails after two of five bytes each.
    assert!(rt; leaves(&rt, rt.alloc(), 5, 2, "Ontology(\n"));
    // A text that is written whole but not handed on is told too.
    assert!(rt; leaves(&rt, rt.alloc(), 1_000, 1, ITS_TEXT));
}

/// Whether the words, where every note fails, end with this code and text, and leave so many bytes of the input.
fn ends_without_notes(
    rt: &impl Abort,
    alloc: Global,
    words: &str,
    (code, out): (u8, &str),
    unread: usize,
) -> bool {
    let ran = run_with_room(rt, alloc, words, ONE_SUBSUMPTION, 0);
    let holds = has_ended(&ran, (code, out, "")) && ran.unread == unread;
    drop(ran);
    holds
}

#[test]
fn failing_notes_leave_the_status_as_it_is(rt: HostRuntime) {
    assert!(rt; ends_without_notes(&rt, rt.alloc(), "classify", (0, ITS_TEXT), 0));
    assert!(rt; ends_without_notes(&rt, rt.alloc(), "classify classify", (2, ""), 33));
}

/// Whether a run whose limit is `most` bytes ends with this code and this line.
fn ends_at_most(rt: &impl Abort, alloc: Global, most: u64, code: u8, line: &str) -> bool {
    let limits = Limits::with(1, 1, most, 100, 100).expect(rt, "limits in range");
    let source = source_of(rt, alloc, ONE_SUBSUMPTION, 7);
    let ran = classify_from(rt, alloc, source, sink_of(rt, alloc, 1_000), &limits);
    let holds = ran.status.code() == code && ran.notes.bytes() == line.as_bytes();
    drop(ran);
    holds
}

#[test]
fn the_limit_on_bytes_takes_an_input_of_that_length(rt: HostRuntime) {
    let line = "condor: input longer than 32 bytes\n";
    assert!(rt; ends_at_most(&rt, rt.alloc(), 32, 1, line));
    assert!(rt; ends_at_most(&rt, rt.alloc(), 33, 0, ""));
}
