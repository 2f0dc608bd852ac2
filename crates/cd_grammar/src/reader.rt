//! From the bytes of a text, in pieces, to its document.
ghost use Rattle.std.specs.Prelude.{◌≡◌, ◌<◌, ◌≤◌, ◌+◌, ◌^◌, ℕ, true, false, List, [], ◌++◌, length, IfOk, OnOk, All};
ghost use Rattle.cd_base.specs.Iri.{IsIri};
ghost use Rattle.std.specs.List.{fold};
ghost use Rattle.cd_lex.specs.declared.token.Token.{Token};
ghost use Rattle.cd_lex.specs.Lexing.{IsLexing};
ghost use Rattle.cd_grammar.specs.Causes.{stand_after};
ghost use Rattle.cd_syntax.specs.Grammar.{IsOf};
ghost use Rattle.cd_syntax.specs.Items.{PlacedItem};
ghost use Rattle.cd_syntax.specs.Bounds.{IsSound};
ghost use Rattle.cd_grammar.specs.Reading.{IsReading, IsFinished, standing, started};
ghost use Rattle.cd_grammar.specs.Taking.{Takes, TakesAll, TakesText, IsLast};

use crate::parser::Parser;
use cd_base::{Memory, Seq};
use cd_lex::{LexFault, Lexer};
use cd_meaning::Document;
use cd_syntax::{Item, Known, Refusal, item_of};
use std::alloc::Global;

/// A text that comes in pieces, as far as it came.
#[derive(Drop)]
pub struct Reader {
    pub lexer: Lexer,
    pub parser: Parser,
}

impl Reader {
    /// No byte came. Constant time.
    pub(crate) fn new(alloc: Global) -> Result<Reader, Memory>
        ensures { IfOk result (λ reader. IsReading reader []) }
    {
        Ok(Reader {
            lexer: Lexer::new(alloc),
            parser: Parser::new(alloc)?,
        })
    }

    /// The bytes so far are followed by these. Linear in the piece, whatever came before.
    pub(crate) fn feed(&mut self, alloc: Global, piece: &[u8]) -> Result<(), Memory>
        requires { (fed : List ℕ) × IsReading self.old fed
            × (length fed + length piece.now < 2 ^ 31) }
        ensures { (fed : List ℕ) → IsReading self.old fed
            → OnOk result (IsReading self.new (fed ++ piece.now)) }
    {
        feed_lexer(&mut self.lexer, piece)?;
        take_tokens(alloc, &mut self.lexer, &mut self.parser)
    }

    /// The text has ended: its document, or its first fault. Linear in the number of classes and roles.
    pub(crate) fn finish(self, alloc: Global) -> Result<Result<Document, Refusal>, Memory>
        requires { (fed : List ℕ) × IsReading self fed × (length fed < 2 ^ 31) }
        ensures { (fed : List ℕ) → IsReading self fed → IfOk result (IsFinished fed) }
    {
        let Reader {
            mut lexer,
            mut parser,
        } = self;
        let ended = take_last(alloc, &mut lexer, &mut parser);
        drop(lexer);
        let Parser { known, stack, .. } = parser;
        drop(stack);
        let Ok(stopped) = ended else {
            drop(known);
            return Err(Memory);
        };
        if let Some(refusal) = stopped {
            drop(known);
            return Ok(Err(refusal));
        }
        let document = document_of(alloc, known)?;
        Ok(Ok(document))
    }
}

/// Feeds a lexer. It tells a bad byte again when it is closed, behind the tokens before it.
fn feed_lexer(lexer: &mut Lexer, piece: &[u8]) -> Result<(), Memory>
    requires open { lexer.old.closed ≡ false }
    requires room { lexer.old.place + length piece.now < 2 ^ 64 }
    ensures lexing { (fed : List ℕ) (taken : List Token) → IsLexing lexer.old fed taken
        → OnOk result (IsLexing lexer.new (fed ++ piece.now) taken) }
    ensures open { lexer.new.closed ≡ false }
    ensures place { lexer.new.place ≤ lexer.old.place + length piece.now }
{
    match lexer.feed(piece) {
        Ok(()) => Ok(()),
        Err(LexFault::BadByte(_)) => Ok(()),
        Err(LexFault::Memory) => Err(Memory),
    }
}

/// Closes a lexer. What ends the items of the text, with its place.
fn close_lexer(lexer: &mut Lexer) -> Result<(Item, u64), Memory>
    requires { lexer.old.closed ≡ false }
    ensures lexing { (fed : List ℕ) (taken : List Token) → IsLexing lexer.old fed taken
        → OnOk result (IsLexing lexer.new fed taken) }
    ensures last { (fed : List ℕ) (taken : List Token) → IsLexing lexer.old fed taken
        → IfOk result (IsLast lexer.new.fault (length fed)) }
    ensures closed { lexer.new.closed ≡ true }
{
    let length = lexer.place();
    match lexer.close() {
        Ok(()) => Ok((Item::End, length)),
        Err(LexFault::BadByte(place)) => Ok((Item::Bad, place)),
        Err(LexFault::Memory) => Err(Memory),
    }
}

/// The text has ended: takes the tokens that are left, and what ends its items. Its first fault. Linear in them.
fn take_last(
    alloc: Global,
    lexer: &mut Lexer,
    parser: &mut Parser,
) -> Result<Option<Refusal>, Memory>
    requires open { lexer.old.closed ≡ false }
    requires few { (fed : List ℕ) × (taken : List Token) × Takes lexer.old parser.old fed taken
        × (length fed < 2 ^ 31) }
    ensures text { (fed : List ℕ) (taken : List Token) → Takes lexer.old parser.old fed taken
        → OnOk result (TakesText parser.new fed) }
    ensures stopped { IfOk result (λ stopped. stopped ≡ parser.new.stopped) }
{
    let (last, place) = close_lexer(lexer)?;
    if let Err(memory) = take_tokens(alloc, lexer, parser) {
        drop(last);
        return Err(memory);
    }
    take_item(alloc, parser, last, place)?;
    Ok(parser.stopped)
}

/// Takes the tokens that have ended, one after another. Linear in them.
fn take_tokens(alloc: Global, lexer: &mut Lexer, parser: &mut Parser) -> Result<(), Memory>
    requires { (fed : List ℕ) × (taken : List Token) × Takes lexer.old parser.old fed taken
        × (length fed < 2 ^ 31) }
    ensures all { (fed : List ℕ) (taken : List Token) → Takes lexer.old parser.old fed taken
        → OnOk result (TakesAll lexer.new parser.new fed) }
    ensures closed { lexer.new.closed ≡ lexer.old.closed }
    ensures fault { lexer.new.fault ≡ lexer.old.fault }
    ensures place { lexer.new.place ≡ lexer.old.place }
{
    while let Some(token) = lexer.take_token() {
        take_item(alloc, parser, item_of(token.kind), token.place)?;
    }
    Ok(())
}

/// Takes the next item, which stands at this place of the text, unless the parser has stopped.
fn take_item(alloc: Global, parser: &mut Parser, item: Item, place: u64) -> Result<(), Memory>
    requires { (items : List PlacedItem) × (standing parser.old ≡ fold stand_after started items)
        × (length items < 2 ^ 31) }
    ensures { OnOk result (standing parser.new ≡ stand_after (standing parser.old) (item, place)) }
{
    if parser.stopped.is_some() {
        return Ok(());
    }
    parser.take(alloc, &item, place)
}

/// The document of what is known. Linear in the number of classes and roles.
fn document_of(alloc: Global, known: Known) -> Result<Document, Memory>
    requires { IsSound known }
    ensures { IfOk result (λ document. IsOf document known) }
{
    let Known {
        prefixes,
        classes,
        roles,
        axioms,
    } = known;
    drop(prefixes);
    let Ok(classes) = classes.into_iris(alloc) else {
        drop(roles);
        drop(axioms);
        return Err(Memory);
    };
    let Ok(roles) = roles.into_iris(alloc) else {
        drop(classes);
        drop(axioms);
        return Err(Memory);
    };
    Ok(Document {
        axioms,
        classes: Seq::of(classes),
        roles: Seq::of(roles),
    })
}
