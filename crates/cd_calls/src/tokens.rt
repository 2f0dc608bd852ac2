//! Worked texts, in pieces and whole.
//! What has many parts is let go of by `drop`, which the prover takes as one step.
ghost use Rattle.std.specs.Prelude.{◌≡◌};

use cd_lex::{Kind, LexFault, Lexer, Token};
use std::alloc::Global;
use std::process::Abort;

/// A byte for the kind, the bytes that the token holds with one `|` between two parts, and its place.
fn push_token(rt: &impl Abort, out: &mut Vec<u8>, token: &Token) {
    let (kind, first, second): (u8, &[u8], &[u8]) = match &token.kind {
        Kind::Opening => (b'(', &[], &[]),
        Kind::Closing => (b')', &[], &[]),
        Kind::Equals => (b'=', &[], &[]),
        Kind::Carets => (b'^', &[], &[]),
        Kind::Word(word) => (b'w', word.items(), &[]),
        Kind::Short(prefix, local) => (b's', prefix.items(), local.items()),
        Kind::Node(label) => (b'n', label.items(), &[]),
        Kind::FullIri(iri) => (b'i', iri.items(), &[]),
        Kind::Quoted => (b'q', &[], &[]),
        Kind::Lang => (b'l', &[], &[]),
    };
    out.push(kind).expect(rt, "memory");
    out.extend_from_slice(first).expect(rt, "memory");
    out.push(b'|').expect(rt, "memory");
    out.extend_from_slice(second).expect(rt, "memory");
    out.extend_from_slice(&token.place.to_be_bytes())
        .expect(rt, "memory");
}

/// Adds the next token, and tells whether there was one.
fn push_next(rt: &impl Abort, out: &mut Vec<u8>, lexer: &mut Lexer) -> bool
    ensures closed { lexer.new.closed ≡ lexer.old.closed }
    ensures place { lexer.new.place ≡ lexer.old.place }
{
    match lexer.take_token() {
        Some(token) => {
            push_token(rt, out, &token);
            drop(token);
            true
        }
        None => false,
    }
}

/// The tokens of a text that is fed in two pieces and then closed.
fn tokens_of(rt: &impl Abort, alloc: Global, front: &[u8], back: &[u8]) -> Vec<u8> {
    let mut lexer = Lexer::new(alloc);
    lexer.feed(front).expect(rt, "a text");
    lexer.feed(back).expect(rt, "a text");
    lexer.close().expect(rt, "a text");
    let mut found = Vec::new(alloc);
    for _ in 0..1_000 {
        if !push_next(rt, &mut found, &mut lexer) {
            break;
        }
    }
    drop(lexer);
    found
}

/// Whether the next token is written like this; nothing is expected where there is none.
fn is_next(rt: &impl Abort, alloc: Global, lexer: &mut Lexer, expected: &[u8]) -> bool
    ensures closed { lexer.new.closed ≡ lexer.old.closed }
    ensures place { lexer.new.place ≡ lexer.old.place }
{
    let mut found = Vec::new(alloc);
    push_next(rt, &mut found, lexer);
    let holds = found.as_slice() == expected;
    drop(found);
    holds
}

#[test]
fn tokens_come_as_soon_as_they_end(rt: HostRuntime) {
    let alloc = rt.alloc();
    let mut lexer = Lexer::new(alloc);
    lexer.feed(b"Ontology(Sub").expect(&rt, "a text");
    assert!(rt; is_next(&rt, alloc, &mut lexer, b"wOntology|\0\0\0\0\0\0\0\0"));
    assert!(rt; is_next(&rt, alloc, &mut lexer, b"(|\0\0\0\0\0\0\0\x08"));
    assert!(rt; is_next(&rt, alloc, &mut lexer, b""));
    lexer.feed(b"ClassOf(").expect(&rt, "a text");
    assert!(rt; is_next(&rt, alloc, &mut lexer, b"wSubClassOf|\0\0\0\0\0\0\0\x09"));
    assert!(rt; is_next(&rt, alloc, &mut lexer, b"(|\0\0\0\0\0\0\0\x13"));
    drop(lexer);
}

/// What the text is told as where it comes at once, and what then where it is closed.
fn told(alloc: Global, text: &str) -> (Result<(), LexFault>, Result<(), LexFault>) {
    let mut lexer = Lexer::new(alloc);
    let fed = lexer.feed(text.as_bytes());
    let closed = lexer.close();
    drop(lexer);
    (fed, closed)
}

#[test]
fn a_bad_byte_is_told_where_it_stands(rt: HostRuntime) {
    for (text, place) in [
        ("p:A^x", 3),
        ("a <>", 2),
        ("a \"b\\n\"", 2),
        ("a @1", 2),
        ("#c\n\x01", 3),
    ] {
        let bad = Err(LexFault::BadByte(place));
        assert!(rt; told(rt.alloc(), text) == (bad, bad), "{text}");
    }
    for (text, place) in [("a \"x", 2), ("<x:A", 0), ("a ^", 2), ("a @", 2)] {
        let bad = Err(LexFault::BadByte(place));
        assert!(rt; told(rt.alloc(), text) == (Ok(()), bad), "{text}");
    }
}

#[test]
fn what_stands_before_a_bad_byte_can_still_be_taken(rt: HostRuntime) {
    let mut lexer = Lexer::new(rt.alloc());
    let fed = lexer.feed(b"p:A^x");
    assert!(rt; fed == Err(LexFault::BadByte(3)));
    assert!(rt; is_next(&rt, rt.alloc(), &mut lexer, b"sp:|A\0\0\0\0\0\0\0\0"));
    drop(lexer);
}

/// Whether the tokens of a text that is fed in two pieces are written like this.
fn has_tokens(rt: &impl Abort, alloc: Global, front: &[u8], back: &[u8], expected: &[u8]) -> bool {
    let found = tokens_of(rt, alloc, front, back);
    let holds = found.as_slice() == expected;
    drop(found);
    holds
}

#[test]
fn each_kind_of_token_is_told_apart(rt: HostRuntime) {
    for (text, expected) in [
        ("p:A", b"sp:|A\0\0\0\0\0\0\0\0".as_slice()),
        (":A", b"s:|A\0\0\0\0\0\0\0\0".as_slice()),
        ("_:a", b"na|\0\0\0\0\0\0\0\0".as_slice()),
        (" <x:A>", b"ix:A|\0\0\0\0\0\0\0\x01".as_slice()),
        ("\"a\\\"b\\\\\"", b"q|\0\0\0\0\0\0\0\0".as_slice()),
        ("#=(\r^^", b"^|\0\0\0\0\0\0\0\x04".as_slice()),
        ("@en-GB", b"l|\0\0\0\0\0\0\0\0".as_slice()),
    ] {
        assert!(rt;
            has_tokens(&rt, rt.alloc(), text.as_bytes(), b"", expected),
            "{text}"
        );
    }
}

#[test]
fn every_cut_into_two_pieces_gives_the_same_tokens(rt: HostRuntime) {
    let text =
        b"Ontology(SubClassOf(owl:Thing owl:Nothing) Declaration(Class(<x:A>)) Declaration(Class(<x:B>)) Declaration(Class(<x:C>)))";
    let whole = tokens_of(&rt, rt.alloc(), text, b"");
    for (cut, _) in text.iter().enumerate() {
        let (front, back) = text.split_at(cut);
        assert!(rt;
            has_tokens(&rt, rt.alloc(), front, back, whole.as_slice()),
            "{cut}"
        );
    }
    drop(whole);
}
