//! Names and prefixes. Expected values are written by hand.
//! What has many parts is let go of by `drop`, which the prover takes as one step.
use cd_names::{DeclareFault, ExpandFault, Names, Prefixes};
use std::alloc::Global;
use std::process::Abort;

#[test]
fn a_name_keeps_its_number(rt: HostRuntime) {
    let mut names = Names::new(rt.alloc());
    for (iri, number) in [(b"x:A", 0), (b"x:B", 1), (b"x:A", 0)] {
        assert!(rt; names.len() < u32::MAX);
        assert!(rt; names.add(iri) == Ok(number));
    }
    assert!(rt; names.len() == 2);
    assert!(rt; names.text(0) == b"x:A".as_slice());
    assert!(rt; names.text(1) == b"x:B".as_slice());
    let iris = names.into_iris(rt.alloc()).expect(&rt, "memory");
    assert!(rt; iris.len() == 2);
    assert!(rt; iris[1].items() == b"x:B".as_slice());
    drop(iris);
}

/// Whether the name under the prefix stands for this IRI.
fn stands_for(
    rt: &impl Abort,
    alloc: Global,
    prefixes: &Prefixes,
    (prefix, local): (&[u8], &[u8]),
    iri: &[u8],
) -> bool {
    let found = prefixes.expand(alloc, prefix, local).expect(rt, "a prefix");
    let holds = found.items() == iri;
    drop(found);
    holds
}

#[test]
fn a_prefix_stands_for_one_iri(rt: HostRuntime) {
    let alloc = rt.alloc();
    let mut prefixes = Prefixes::standard(alloc).expect(&rt, "memory");
    let same = prefixes.declare(alloc, b"owl:", b"http://www.w3.org/2002/07/owl#");
    assert!(rt; same == Ok(()));
    let other = prefixes.declare(alloc, b"owl:", b"x:");
    assert!(rt; other == Err(DeclareFault::Clash));
    let thing = b"http://www.w3.org/2002/07/owl#Thing";
    assert!(rt; stands_for(&rt, alloc, &prefixes, (b"owl:", b"Thing"), thing));
    let unknown = prefixes.expand(alloc, b"q:", b"a").err();
    assert!(rt; unknown == Some(ExpandFault::Unknown));
    // A prefix is not found under a longer one.
    assert!(rt; prefixes.declare(alloc, b"a:", b"x:") == Ok(()));
    assert!(rt; prefixes.declare(alloc, b"ab:", b"y:") == Ok(()));
    assert!(rt; stands_for(&rt, alloc, &prefixes, (b"a:", b"c"), b"x:c"));
    assert!(rt; stands_for(&rt, alloc, &prefixes, (b"ab:", b"c"), b"y:c"));
    drop(prefixes);
}
