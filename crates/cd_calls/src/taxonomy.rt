//! A taxonomy worked by hand: A is below B, and C can have no member.
//! What has many parts is let go of by `drop`, which the prover takes as one step.
ghost use Rattle.std.specs.Prelude.{◌≡◌, [], ◌∷◌, length, codes, All};
ghost use Rattle.cd_meaning.specs.Iri.{thing, nothing};
ghost use Rattle.cd_taxonomy.specs.Relation.{relation, HasClassesBelow, IsSubsumption};

use cd_base::{Answer, Atom, Seq};
use cd_meaning::Document;
use cd_taxonomy::{Group, summary, summary_text, taxonomy, text};
use std::alloc::Global;
use std::process::Abort;

const TEXT: &str =
    "Ontology(\nEquivalentClasses(<http://www.w3.org/2002/07/owl#Nothing> <x:C>)\nSubClassOf(<x:A> <x:B>)\nSubClassOf(<x:B> <http://www.w3.org/2002/07/owl#Thing>)\n)\n";

const SUMMARY: &str = "names 5\ngroups 4\nunsatisfiable 1\nlinks 2\n";

fn names(rt: &impl Abort, alloc: Global) -> Vec<Seq<u8>>
    ensures { result.items ≡ thing ∷ nothing ∷ codes "x:A" ∷ codes "x:B" ∷ codes "x:C" ∷ [] }
{
    let mut found = Vec::new(alloc);
    found
        .push(name(rt, alloc, b"http://www.w3.org/2002/07/owl#Thing"))
        .expect(rt, "memory");
    found
        .push(name(rt, alloc, b"http://www.w3.org/2002/07/owl#Nothing"))
        .expect(rt, "memory");
    found.push(name(rt, alloc, b"x:A")).expect(rt, "memory");
    found.push(name(rt, alloc, b"x:B")).expect(rt, "memory");
    found.push(name(rt, alloc, b"x:C")).expect(rt, "memory");
    found
}

fn name(rt: &impl Abort, alloc: Global, bytes: &[u8]) -> Seq<u8>
    ensures { result ≡ bytes.now }
{
    Seq::of(bytes.to_vec(alloc).expect(rt, "memory"))
}

/// The classes, and no axioms: what is below what is said by the answers.
fn document(rt: &impl Abort, alloc: Global) -> Document
    ensures { length result.classes ≡ 5 }
{
    let classes = names(rt, alloc);
    Document {
        axioms: Seq::of(Vec::new(alloc)),
        classes: Seq::of(classes),
        roles: Seq::of(Vec::new(alloc)),
    }
}

fn answers(rt: &impl Abort, alloc: Global) -> Vec<Answer>
    ensures each { length result.items ≡ 5 }
    ensures within { All (HasClassesBelow 5) result.items }
    ensures subsumption { IsSubsumption 5 (relation result.items) }
{
    let answers = [
        atoms(rt, alloc, &[Atom(0)]),
        Answer::Unsatisfiable,
        atoms(rt, alloc, &[Atom(3), Atom(2), Atom(0)]),
        atoms(rt, alloc, &[Atom(3), Atom(0)]),
        Answer::Unsatisfiable,
    ];
    Vec::from_array(alloc, answers).expect(rt, "memory")
}

/// The answer of a class that is below these.
fn atoms(rt: &impl Abort, alloc: Global, listed: &[Atom]) -> Answer
    ensures { result ≡ Answer.Of listed.now }
{
    Answer::Of(Seq::of(listed.to_vec(alloc).expect(rt, "memory")))
}

/// Whether the groups are those of owl:Nothing and C, of owl:Thing, of A and of B, in the order of their names, each with those above it.
fn are_the_groups(groups: &[Group]) -> bool {
    let members: [&[u32]; 4] = [&[1, 4], &[0], &[2], &[3]];
    let parents: [&[u32]; 4] = [&[2], &[], &[3], &[1]];
    if groups.len() != 4 {
        return false;
    }
    for (number, group) in groups.iter().enumerate() {
        if group.members.items() != members[number] {
            return false;
        }
        if group.parents.items() != parents[number] {
            return false;
        }
    }
    true
}

/// Whether the taxonomy has these groups, and the text and the summary written out above.
fn is_worked(rt: &impl Abort, alloc: Global, document: &Document, above: &[Answer]) -> bool
    requires answered { length above.now ≡ length document.now.classes }
    requires within { All (HasClassesBelow (length document.now.classes)) above.now }
    requires subsumption { IsSubsumption (length document.now.classes) (relation above.now) }
{
    let found = match taxonomy(alloc, document, above) {
        Ok(found) => found,
        Err(_) => panic!(rt; "memory"),
    };
    let printed = text(alloc, document, &found).expect(rt, "memory");
    let counted = summary_text(alloc, &summary(&found)).expect(rt, "memory");
    let grouped = are_the_groups(found.groups.items());
    drop(found);
    grouped && printed.as_slice() == TEXT.as_bytes() && counted.as_slice() == SUMMARY.as_bytes()
}

#[test]
fn a_worked_taxonomy_has_its_groups_its_text_and_its_summary(rt: HostRuntime) {
    let document = document(&rt, rt.alloc());
    let above = answers(&rt, rt.alloc());
    assert!(rt; is_worked(&rt, rt.alloc(), &document, &above));
    drop(above);
    drop(document);
}
